// Read back: the refusals in their order, then the case.
ghost use Rattle.std.specs.Prelude.{◌≡◌, ◌≤◌, length};
ghost use Rattle.theory.specs.CaseText.{case_length};
ghost use Rattle.theory.specs.Operations.{over};
ghost use Rattle.answers.specs.Calls.{ReadBackCall};
ghost use Rattle.syntax.specs.Signatures.{signature_in};
ghost use Rattle.reading_back.specs.Bits.{FrontLent, front_bits, case_said};
ghost use Rattle.reading_back.specs.Settings.{SizedSymbols, WriteSettingCall};

use crate::tables::Bits;
use crate::writing::write_case;
use answers::{WriteAnswer, at_line, needing};
use cases::writing::case_length;
use columns::opened::open_sheet;
use syntax::faults::Fault;
use syntax::signature::Signature;
use syntax::size::DomainSize;
use valuations::numbering::numbering_of;
use valuations::valuation::{is_functional, is_valuation};

// The sheet's refusals, 8, then those of the setting and the output.
pub fn read_setting_back(
    sheet: &[u8],
    size: u64,
    named: bool,
    setting: &[u8],
    output: &mut [u8],
) -> WriteAnswer
    ensures { ReadBackCall sheet.now size named setting.now result output.old output.new }
{
    let p = open_sheet(sheet, named)?;
    let Some(s) = DomainSize::checked(size as usize) else {
        return Err(at_line(Fault::Size, 0));
    };
    write_setting(sheet, p.signature, s, setting, output)
}

// 13, 14, 11, or the case that the setting says. It shows the declared symbols.
fn write_setting(
    sheet: &[u8],
    signature: Signature,
    size: DomainSize,
    setting: &[u8],
    output: &mut [u8],
) -> WriteAnswer
    requires { SizedSymbols sheet.now signature size.0 }
    ensures { WriteSettingCall sheet.now signature size.0 setting.now result output.old output.new }
{
    let n = numbering_of(signature, size);
    if !is_valuation(setting, n) {
        return Err(at_line(Fault::Setting, 0));
    }
    if !is_functional(setting, signature, n, size) {
        return Err(at_line(Fault::Cell, 0));
    }
    let shown = signature.declared();
    let length = case_length(shown, size);
    if output.len() < length {
        return Err(needing(Fault::OutputLength, length));
    }
    Ok(write_front(sheet, shown, size, setting, output))
}

// The case of the symbols whose cells have their bits at the front of the setting.
fn write_front(
    sheet: &[u8],
    signature: Signature,
    size: DomainSize,
    setting: &[u8],
    output: &mut [u8],
) -> usize
    requires front_lent { FrontLent sheet.now signature size.0 setting.now }
    requires signature_in_bounds { case_length size.0 (signature_in sheet.now signature) ≤ length output.old }
    ensures written { output.new
        ≡ over (case_said sheet.now signature size.0 (front_bits size.0 (signature_in sheet.now signature) setting.now)) output.old }
    ensures place { result ≡ case_length size.0 (signature_in sheet.now signature) }
{
    let n = numbering_of(signature, size);
    let v = n.count as usize;
    write_case(
        sheet,
        signature,
        n,
        size,
        Bits::Setting(&setting[..v]),
        output,
    )
}
