// Setting: the refusals in their order, then the bytes of the case's valuation.
ghost use Rattle.std.specs.Prelude.{List, ℕ, ◌≤◌, length};
ghost use Rattle.answers.specs.Calls.{SettingCall};
ghost use Rattle.syntax.specs.Signatures.{max_cells, signature_in};
ghost use Rattle.clauses.specs.Names.{Limited};
ghost use Rattle.settings.specs.Cells.{CellsCall};

use crate::bits::put_valuation;
use answers::{WriteAnswer, needing};
use columns::opened::{open_case, open_sheet};
use syntax::faults::Fault;
use syntax::limits::Problem;
use syntax::signature::Signature;
use syntax::size::DomainSize;
use valuations::numbering::numbering_of;

// The sheet's refusals, then the case's, then 11, or the setting of the case at the front of the output.
pub fn write_case_setting(sheet: &[u8], case: &[u8], output: &mut [u8]) -> WriteAnswer
    ensures { SettingCall sheet.now case.now result output.old output.new }
{
    let p = open_sheet(sheet, false)?;
    let mut cells = [0; Problem::MAX_CELLS];
    let size = open_case(sheet, p.signature, case, &mut cells)?;
    write_cells(&cells, p.signature, size, output)
}

// 11, or the valuation of the interpretation that the first cells are.
fn write_cells(
    cells: &[u8],
    signature: Signature,
    size: DomainSize,
    output: &mut [u8],
) -> WriteAnswer
    requires { Limited signature × ((size.0 ≤ 8) × (max_cells ≤ length cells.now)) }
    ensures { (sheet : List ℕ) → CellsCall (signature_in sheet signature) size.0 cells.now result output.old output.new }
{
    let n = numbering_of(signature, size);
    let length = n.count as usize;
    if output.len() < length {
        return Err(needing(Fault::OutputLength, length));
    }
    put_valuation(output, cells, signature, n, size);
    Ok(length)
}
