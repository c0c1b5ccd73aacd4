// The text of an interpretation that is held in cells: the writer of Find plain.
#![tactic(auto)]

ghost use Rattle.std.specs.Prelude.{◌≡◌, ◌+◌, ◌≤◌, length};
ghost use Rattle.theory.specs.CaseText.{case_length, case_text, tables_text};
ghost use Rattle.theory.specs.Operations.{over};
ghost use Rattle.syntax.specs.Signatures.{signature_in};
ghost use Rattle.text.specs.Put.{put};
ghost use Rattle.case_writer.specs.Writable.{Writable};

use cases::writing::{put_heading, put_table};
use interpretation::vector::power;
use syntax::signature::Signature;
use syntax::size::DomainSize;

// Writes the case to the front of the output and answers its length.
pub fn write_cells(
    sheet: &[u8],
    signature: Signature,
    size: DomainSize,
    cells: &[u8],
    out: &mut [u8],
) -> usize
    requires writable { Writable sheet.now signature size.0 cells.now }
    requires signature_in_bounds { case_length size.0 (signature_in sheet.now signature) ≤ length out.old }
    ensures written { out.new ≡ over (case_text size.0 (signature_in sheet.now signature) cells.now) out.old }
    ensures place { result ≡ case_length size.0 (signature_in sheet.now signature) }
{
    let at = put_heading(out, size);
    put_tables(sheet, signature, size, cells, out, at)
}

// The symbols' lines at the place `at`; answers the place after them.
fn put_tables(
    sheet: &[u8],
    signature: Signature,
    size: DomainSize,
    cells: &[u8],
    out: &mut [u8],
    at: usize,
) -> usize
    requires writable { Writable sheet.now signature size.0 cells.now }
    requires cells_in_bounds { at + length (tables_text size.0 (signature_in sheet.now signature) cells.now) ≤ length out.old }
    ensures written { out.new ≡ put out.old at (tables_text size.0 (signature_in sheet.now signature) cells.now) }
    ensures place { result ≡ at + length (tables_text size.0 (signature_in sheet.now signature) cells.now) }
{
    let mut e = at;
    let mut base: usize = 0;
    for i in 0..signature.count {
        let symbol = signature.symbols[i];
        let end = base + power(size.0, symbol.arity as usize);
        e = put_table(out, e, sheet, symbol, &cells[base..end]);
        base = end;
    }
    e
}
