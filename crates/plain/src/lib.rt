// Find plain: the least model at the smallest size that has one, by trying all cases in order. No flattening, no propositional variable, no work area.
#![tactic(auto)]

pub mod cells;
pub mod filling;
pub mod sizes;

ghost use Rattle.std.specs.Prelude.{length};
ghost use Rattle.answers.specs.Calls.{PlainCall, PlainSearchingCall};
ghost use Rattle.problem.specs.Problems.{problem_in};
ghost use Rattle.plain.specs.Ending.{ProblemAsRead, found_in};

use answers::{FindAnswer, at_line, needing};
use cases::writing::case_length;
use cells::PlainCells;
use columns::opened::open_sheet;
use interpretation::tables::tables_of;
use ranges::range::checked_range;
use ranges::size_range::SizeRange;
use sizes::search_sizes;
use syntax::faults::Fault;
use syntax::limits::Problem;

// The sheet's refusals, 8, then what is found at the sizes.
pub fn find_plainly(sheet: &[u8], low: u64, high: u64, output: &mut [u8]) -> FindAnswer
    ensures { PlainCall sheet.now low high result output.old output.new }
{
    let p = open_sheet(sheet, false)?;
    let Some(range) = checked_range(low, high) else {
        return Err(at_line(Fault::Size, 0));
    };
    find_in(sheet, p, range, output)
}

// At checked sizes: 20, then 11, then the search.
fn find_in(sheet: &[u8], p: Problem, range: SizeRange, output: &mut [u8]) -> FindAnswer
    requires { ProblemAsRead sheet.now p }
    ensures { PlainSearchingCall (found_in (problem_in sheet.now p) range.low.0 range.high.0 (length output.old)) result output.old output.new }
{
    let signature = p.signature;
    let t = tables_of(signature, range.high);
    if PlainCells::MAX < t.cells {
        return Err(at_line(Fault::PlainCells, 0));
    }
    let length = case_length(signature, range.high);
    if output.len() < length {
        return Err(needing(Fault::OutputLength, length));
    }
    search_sizes(sheet, p, range, output)
}
