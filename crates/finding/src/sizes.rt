// The search size by size: the smallest that has a model decides, and the choices that are left are handed on.
ghost use Rattle.std.specs.Prelude.{◌≡◌, ◌≤◌, length, take};
ghost use Rattle.std.proofs.Math.Option.{some};
ghost use Rattle.theory.specs.Propositional.{prop_count};
ghost use Rattle.theory.specs.Valuation.{setting_of};
ghost use Rattle.theory.specs.Refusals.{answer};
ghost use Rattle.theory.specs.CaseText.{case_length};
ghost use Rattle.naming.specs.NamedProblem.{shown_symbols};
ghost use Rattle.symmetry.specs.Obeying.{searched_with};
ghost use Rattle.problem.specs.Problems.{problem_in};
ghost use Rattle.finding.specs.Searching.{Searchable};
ghost use Rattle.finding.specs.Ending.{Ends, SearchableUpTo, found_within, case_found};

use crate::allowed::{AllowedAnswer, FindResult};
use crate::one_size::search_size;
use loading::clear_all;
use ranges::settled::is_settled;
use ranges::size_range::SizeRange;
use reading_back::tables::Bits;
use reading_back::writing::write_case;
use search::Outcome;
use syntax::limits::Problem;
use syntax::size::DomainSize;
use valuations::numbering::numbering_of;

// Searches the sizes of the range, the smallest first, with so many choices allowed in all.
pub fn search_sizes(
    sheet: &[u8],
    p: Problem,
    range: SizeRange,
    allowance: u64,
    work: &mut [u32],
    output: &mut [u8],
) -> AllowedAnswer
    requires { SearchableUpTo sheet.now p range.high.0 (length work.old) (length output.old) }
    ensures { Ends (found_within p.symmetry (problem_in sheet.now p) range.low.0 range.high.0 allowance) result work.old work.new output.old output.new }
{
    let signature = p.signature;
    let mut made = 0;
    for number in range.low.0..range.high.0 + 1 {
        let size = DomainSize(number);
        let n = numbering_of(signature, size);
        match search_size(sheet, p, n, size, allowance - made, work) {
            Outcome::Found(choices) => {
                return put_found(sheet, p, size, made + choices, work, output);
            }
            Outcome::Exhausted(choices) => made += choices,
            Outcome::Stopped => {
                clear_all(work);
                return Ok(FindResult::Stopped(size.0 as u64, allowance));
            }
        }
    }
    clear_all(work);
    Ok(FindResult::Nothing(is_settled(p, range.low, range.high), made))
}

// Writes the model whose valuation the first numbers of the work area are, found after so many choices, and clears the work area. The case shows the declared symbols, whose
// variables come first.
fn put_found(
    sheet: &[u8],
    p: Problem,
    size: DomainSize,
    choices: u64,
    work: &mut [u32],
    output: &mut [u8],
) -> AllowedAnswer
    requires searchable { Searchable sheet.now p size.0 (length work.old) }
    requires p_value { (searched_with p.symmetry size.0 (problem_in sheet.now p)).answer ≡ some (setting_of (take (prop_count size.0 (problem_in sheet.now p).symbols) work.old)) }
    requires p_in_bounds { case_length size.0 (shown_symbols (problem_in sheet.now p).symbols) ≤ length output.old }
    ensures { Ends (λ _ _. answer (case_found (problem_in sheet.now p) size.0 (take (prop_count size.0 (problem_in sheet.now p).symbols) work.old) choices)) result work.old work.new output.old output.new }
{
    let signature = p.signature;
    let shown = signature.declared();
    let n = numbering_of(shown, size);
    let v = n.count as usize;
    let length = write_case(sheet, shown, n, size, Bits::Values(&work[..v]), output);
    clear_all(work);
    Ok(FindResult::Found(size.0 as u64, length, choices))
}
