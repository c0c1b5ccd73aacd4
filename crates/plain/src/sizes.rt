// The plain engine size by size: the smallest that has a model decides.
ghost use Rattle.std.specs.Prelude.{◌≡◌, ◌≤◌, length};
ghost use Rattle.std.proofs.Math.Option.{some};
ghost use Rattle.theory.specs.CaseText.{case_length, case_text};
ghost use Rattle.theory.specs.Least.{least_model};
ghost use Rattle.theory.specs.Operations.{over};
ghost use Rattle.answers.specs.Calls.{PlainSearchingCall};
ghost use Rattle.problem.specs.Problems.{problem_in};
ghost use Rattle.judging.specs.Cases.{cells_of};
ghost use Rattle.plain.specs.Filling.{Searchable};
ghost use Rattle.plain.specs.Ending.{TriableUpTo, found_within};

use crate::cells::PlainCells;
use crate::filling::least_model;
use answers::{FindAnswer, PlainResult};
use case_writer::write_cells;
use interpretation::tables::tables_of;
use ranges::settled::is_settled;
use ranges::size_range::SizeRange;
use syntax::limits::Problem;
use syntax::size::DomainSize;

// Searches the sizes of the range, the smallest first.
pub fn search_sizes(sheet: &[u8], p: Problem, range: SizeRange, output: &mut [u8]) -> FindAnswer
    requires { TriableUpTo sheet.now p range.high.0 (length output.old) }
    ensures { PlainSearchingCall (found_within (problem_in sheet.now p) range.low.0 range.high.0) result output.old output.new }
{
    for s in range.low.0..range.high.0 + 1 {
        let size = DomainSize(s);
        if let Some(cells) = least_model(sheet, p, size) {
            let length = put_model(sheet, p, size, cells, output);
            return Ok(PlainResult::Found(s as u64, length));
        }
    }
    Ok(PlainResult::Nothing(is_settled(p, range.low, range.high)))
}

// Writes the model that was found to the front of the output and answers the length of its case.
fn put_model(
    sheet: &[u8],
    p: Problem,
    size: DomainSize,
    cells: PlainCells,
    output: &mut [u8],
) -> usize
    requires searchable { Searchable sheet.now p size.0 }
    requires p_value { least_model size.0 (problem_in sheet.now p) ≡ some (cells_of sheet.now p cells.values size.0) }
    requires p_in_bounds { case_length size.0 (problem_in sheet.now p).symbols ≤ length output.old }
    ensures written { output.new ≡ over (case_text size.0 (problem_in sheet.now p).symbols (cells_of sheet.now p cells.values size.0)) output.old }
    ensures place { result ≡ case_length size.0 (problem_in sheet.now p).symbols }
{
    let signature = p.signature;
    let t = tables_of(signature, size);
    let count = t.cells;
    let values = cells.values;
    write_cells(sheet, signature, size, &values[0..count], output)
}
