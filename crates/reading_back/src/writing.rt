// The text of the interpretation that a valuation says: the one writer of Read back and Find.
ghost use Rattle.std.specs.Prelude.{◌≡◌, ◌+◌, ◌≤◌, length};
ghost use Rattle.theory.specs.CaseText.{case_length};
ghost use Rattle.theory.specs.Operations.{over};
ghost use Rattle.syntax.specs.Signatures.{signature_in};
ghost use Rattle.text.specs.Put.{put};
ghost use Rattle.reading_back.specs.Bits.{WritableBits, bits_held, case_said, lines_said};

use crate::tables::{Bits, put_symbol};
use cases::writing::put_heading;
use indices::PropVar;
use syntax::signature::Signature;
use syntax::size::DomainSize;
use valuations::numbering::Numbering;

// Writes the case to the front of the output and answers its length.
pub fn write_case(
    sheet: &[u8],
    signature: Signature,
    n: Numbering,
    size: DomainSize,
    bits: Bits<'_>,
    out: &mut [u8],
) -> usize
    requires writable_bits { WritableBits sheet.now signature n size.0 (bits_held bits) }
    requires signature_in_bounds { case_length size.0 (signature_in sheet.now signature) ≤ length out.old }
    ensures written { out.new ≡ over (case_said sheet.now signature size.0 (bits_held bits.entry)) out.old }
    ensures place { result ≡ case_length size.0 (signature_in sheet.now signature) }
{
    let at = put_heading(out, size);
    put_tables(sheet, signature, n, size, bits, out, at)
}

// The symbols' lines at the place `at`; answers the place after them.
fn put_tables(
    sheet: &[u8],
    signature: Signature,
    n: Numbering,
    size: DomainSize,
    bits: Bits<'_>,
    out: &mut [u8],
    at: usize,
) -> usize
    requires writable_bits { WritableBits sheet.now signature n size.0 (bits_held bits) }
    requires values_in_bounds { at + length (lines_said sheet.now signature size.0 (bits_held bits)) ≤ length out.old }
    ensures written { out.new ≡ put out.old at (lines_said sheet.now signature size.0 (bits_held bits.entry)) }
    ensures place { result ≡ at + length (lines_said sheet.now signature size.0 (bits_held bits.entry)) }
{
    let mut e = at;
    for i in 0..signature.count {
        let from = n.bases[i];
        e = put_symbol(
            sheet,
            signature.symbols[i],
            PropVar(from),
            size,
            bits,
            out,
            e,
        );
    }
    e
}
