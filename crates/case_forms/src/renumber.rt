// Renumber: the refusals in their order, then the case renumbered by the list.
ghost use Rattle.std.specs.Prelude.{◌≡◌, ◌≤◌, length};
ghost use Rattle.theory.specs.CaseText.{case_length, case_text};
ghost use Rattle.theory.specs.Operations.{over};
ghost use Rattle.renumbering.specs.Renumbering.{renumbered};
ghost use Rattle.answers.specs.Calls.{WritingCall};
ghost use Rattle.syntax.specs.Signatures.{signature_in};
ghost use Rattle.case_writer.specs.Writable.{Writable};
ghost use Rattle.rearranging.specs.Entries.{rearrangement_in};
ghost use Rattle.rearranging.specs.Candidates.{Rearranges};
ghost use Rattle.case_forms.specs.Calls.{RenumberCall};
ghost use Rattle.case_forms.specs.Cells.{CaseHeld, renumbered_cells};

use crate::opened::OpenedCase;
use answers::{WriteAnswer, at_line, needing};
use case_writer::write_cells;
use cases::writing::case_length;
use columns::opened::{open_case, open_sheet};
use interpretation::tables::tables_of;
use rearranging::candidates::take_renumbered;
use rearranging::lists::read_list;
use rearranging::rearrangement::Rearrangement;
use rearranging::standing::Standing;
use syntax::faults::Fault;
use syntax::limits::Problem;

// The sheet's refusals, then the case's, then 25 and 11, or the renumbered case at the front of the output.
pub fn renumber_case(sheet: &[u8], case: &[u8], list: &[u8], output: &mut [u8]) -> WriteAnswer
    ensures { RenumberCall sheet.now case.now list.now result output.old output.new }
{
    let p = open_sheet(sheet, false)?;
    let mut cells = [0; Problem::MAX_CELLS];
    let size = open_case(sheet, p.signature, case, &mut cells)?;
    let opened = OpenedCase {
        sheet,
        signature: &p.signature,
        size,
        cells: &cells,
    };
    write_renumbered(opened, list, output)
}

// 25, 11, or the renumbered case of the interpretation that the first cells are.
fn write_renumbered(case: OpenedCase<'_>, list: &[u8], output: &mut [u8]) -> WriteAnswer
    requires { CaseHeld case.sheet.now case.signature.now case.size.0 case.cells.now }
    ensures { WritingCall (renumbered_cells case.entry.size.0 (signature_in case.entry.sheet.now case.entry.signature.now) case.entry.cells.now list.now (length output.old)) result output.old output.new }
{
    let Some(entries) = read_list(list, case.size) else {
        return Err(at_line(Fault::Renumbering, 0));
    };
    let length = case_length(*case.signature, case.size);
    if output.len() < length {
        return Err(needing(Fault::OutputLength, length));
    }
    let t = tables_of(*case.signature, case.size);
    let count = t.cells;
    let first = OpenedCase {
        cells: &case.cells[0..count],
        ..case
    };
    let mut held = [0; Problem::MAX_CELLS];
    Ok(put_renumbered(first, entries, &mut held[0..count], output))
}

// Renumbers the cells into those held, writes these to the front of the output and answers the length of their case.
fn put_renumbered(
    case: OpenedCase<'_>,
    r: Rearrangement,
    held: &mut [u8],
    output: &mut [u8],
) -> usize
    requires writable { Writable case.sheet.now case.signature.now case.size.0 case.cells.now × (Rearranges case.size.0 r × (length held.old ≡ length case.cells.now)) }
    requires signature_in_bounds { case_length case.size.0 (signature_in case.sheet.now case.signature.now) ≤ length output.old }
    ensures written { output.new
        ≡ over (case_text case.entry.size.0 (signature_in case.entry.sheet.now case.entry.signature.now) (renumbered case.entry.size.0 (signature_in case.entry.sheet.now case.entry.signature.now) (rearrangement_in r) case.entry.cells.now)) output.old }
    ensures place { result ≡ case_length case.entry.size.0 (signature_in case.entry.sheet.now case.entry.signature.now) }
{
    take_renumbered(
        case.cells,
        *case.signature,
        case.size,
        r,
        Standing::Before,
        held,
    );
    write_cells(case.sheet, *case.signature, case.size, held, output)
}
