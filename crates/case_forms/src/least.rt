// Least form: the refusals in their order, then the least of all renumberings of the case.
ghost use Rattle.std.specs.Prelude.{◌≡◌, ◌≤◌, length};
ghost use Rattle.theory.specs.CaseText.{case_length, case_text};
ghost use Rattle.theory.specs.Operations.{over};
ghost use Rattle.renumbering.specs.LeastForm.{least_form};
ghost use Rattle.answers.specs.Calls.{WritingCall};
ghost use Rattle.syntax.specs.Signatures.{signature_in};
ghost use Rattle.case_writer.specs.Writable.{Writable};
ghost use Rattle.case_forms.specs.Calls.{LeastFormCall};
ghost use Rattle.case_forms.specs.Cells.{CaseHeld, least_cells};

use crate::opened::OpenedCase;
use answers::{WriteAnswer, needing};
use case_writer::write_cells;
use cases::writing::case_length;
use columns::opened::{open_case, open_sheet};
use interpretation::tables::tables_of;
use rearranging::all::take_all;
use rearranging::rearrangement::Rearrangement;
use syntax::faults::Fault;
use syntax::limits::Problem;
use text::writing::put_bytes;

// The sheet's refusals, then the case's, then 11, or the least form of the case at the front of the output.
pub fn write_least_form(sheet: &[u8], case: &[u8], output: &mut [u8]) -> WriteAnswer
    ensures { LeastFormCall sheet.now case.now result output.old output.new }
{
    let p = open_sheet(sheet, false)?;
    let mut cells = [0; Problem::MAX_CELLS];
    let size = open_case(sheet, p.signature, case, &mut cells)?;
    let opened = OpenedCase {
        sheet,
        signature: &p.signature,
        size,
        cells: &cells,
    };
    write_least(opened, output)
}

// 11, or the least form of the interpretation that the first cells are.
fn write_least(case: OpenedCase<'_>, output: &mut [u8]) -> WriteAnswer
    requires { CaseHeld case.sheet.now case.signature.now case.size.0 case.cells.now }
    ensures { WritingCall (least_cells case.entry.size.0 (signature_in case.entry.sheet.now case.entry.signature.now) case.entry.cells.now (length output.old)) result output.old output.new }
{
    let length = case_length(*case.signature, case.size);
    if output.len() < length {
        return Err(needing(Fault::OutputLength, length));
    }
    let t = tables_of(*case.signature, case.size);
    let count = t.cells;
    let first = OpenedCase {
        cells: &case.cells[0..count],
        ..case
    };
    let mut held = [0; Problem::MAX_CELLS];
    Ok(put_least(first, &mut held[0..count], output))
}

// Keeps the least of all renumberings in the cells held, the case itself first, writes these to the front of the output and answers the length of their case.
fn put_least(case: OpenedCase<'_>, held: &mut [u8], output: &mut [u8]) -> usize
    requires writable { Writable case.sheet.now case.signature.now case.size.0 case.cells.now × (length held.old ≡ length case.cells.now) }
    requires signature_in_bounds { case_length case.size.0 (signature_in case.sheet.now case.signature.now) ≤ length output.old }
    ensures written { output.new
        ≡ over (case_text case.entry.size.0 (signature_in case.entry.sheet.now case.entry.signature.now) (least_form case.entry.size.0 (signature_in case.entry.sheet.now case.entry.signature.now) case.entry.cells.now)) output.old }
    ensures place { result ≡ case_length case.entry.size.0 (signature_in case.entry.sheet.now case.entry.signature.now) }
{
    put_bytes(held, 0, case.cells);
    take_all(
        case.cells,
        *case.signature,
        case.size,
        Rearrangement::none(),
        held,
    );
    write_cells(case.sheet, *case.signature, case.size, held, output)
}
