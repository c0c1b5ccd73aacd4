// The search at one size: the clauses are counted, entered and searched.
ghost use Rattle.std.specs.Prelude.{◌≡◌, List, ℕ, length, take};
ghost use Rattle.theory.specs.Walk.{yes_first};
ghost use Rattle.allowance.specs.AllowedWalk.{searched_within};
ghost use Rattle.syntax.specs.Signatures.{signature_in};
ghost use Rattle.propagation.specs.WorkArea.{Loaded};
ghost use Rattle.loading.specs.Loading.{Tallied, Entered};
ghost use Rattle.stream.specs.Literals.{all_codes};
ghost use Rattle.problem.specs.Problems.{problem_in};
ghost use Rattle.search.specs.Search.{end_told};
ghost use Rattle.valuations.specs.Numbers.{NumberingOf};
ghost use Rattle.finding.specs.Searching.{Searchable, sheet_clauses};

use crate::first_values::prefer_all;
use encoding::all_clauses;
use loading::{bounds, clear_all};
use search::{Outcome, solve};
use stream::consumer::{Entering, Tallying};
use syntax::limits::Problem;
use syntax::size::DomainSize;
use valuations::numbering::Numbering;

// Clears the work area and counts the clauses at a size in it; answers how many they are.
fn count_clauses(
    sheet: &[u8],
    p: Problem,
    n: Numbering,
    size: DomainSize,
    work: &mut [u32],
) -> usize
    requires searchable { Searchable sheet.now p size.0 (length work.old) }
    requires numbering_of { NumberingOf (signature_in sheet.now p.signature) size.0 n }
    ensures number { length (sheet_clauses size.0 sheet.now p) ≡ result }
    ensures tallied { Tallied n.count (all_codes (sheet_clauses size.0 sheet.now p)) work.new }
{
    clear_all(work);
    let variables = n.count as usize;
    let mut tallying = Tallying {
        work,
        variables,
        count: 0,
    };
    all_clauses(sheet, p, n, size, &mut tallying);
    tallying.count
}

// Enters the m clauses at a size that were counted.
fn enter_clauses(
    sheet: &[u8],
    p: Problem,
    n: Numbering,
    size: DomainSize,
    m: usize,
    work: &mut [u32],
)
    requires searchable { Searchable sheet.now p size.0 (length work.old) }
    requires numbering_of { NumberingOf (signature_in sheet.now p.signature) size.0 n }
    requires p_len { length (sheet_clauses size.0 sheet.now p) ≡ m }
    requires tallied { Tallied n.count (all_codes (sheet_clauses size.0 sheet.now p)) work.old }
    ensures { Entered n.count (all_codes (sheet_clauses size.0 sheet.now p)) (all_codes (sheet_clauses size.0 sheet.now p)) work.new }
{
    let variables = n.count as usize;
    bounds(work, variables, m);
    let mut entering = Entering {
        work,
        variables,
        count: 0,
    };
    all_clauses(sheet, p, n, size, &mut entering);
}

// Loads the clauses at a size into the work area, whatever it holds, and answers how many they are.
fn load(sheet: &[u8], p: Problem, n: Numbering, size: DomainSize, work: &mut [u32]) -> usize
    requires searchable { Searchable sheet.now p size.0 (length work.old) }
    requires by_index { (text : List ℕ) → NumberingOf (signature_in text p.signature) size.0 n }
    ensures number { length (sheet_clauses size.0 sheet.now p) ≡ result }
    ensures loaded { Loaded n.count (sheet_clauses size.0 sheet.now p) (yes_first size.0 (signature_in sheet.now p.signature)) work.new }
{
    let m = count_clauses(sheet, p, n, size, work);
    enter_clauses(sheet, p, n, size, m, work);
    let signature = p.signature;
    prefer_all(signature, size, n.count as usize, work);
    m
}

// Searches the problem at the size with so many choices allowed. Where it has a model, the first numbers of the work area are the valuation of the least.
pub fn search_size(
    sheet: &[u8],
    p: Problem,
    n: Numbering,
    size: DomainSize,
    allowed: u64,
    work: &mut [u32],
) -> Outcome
    requires searchable { Searchable sheet.now p size.0 (length work.old) }
    requires by_index { (text : List ℕ) → NumberingOf (signature_in text p.signature) size.0 n }
    ensures { searched_within p.symmetry size.0 (problem_in sheet.now p) allowed ≡ end_told result (take n.count work.new) }
{
    let m = load(sheet, p, n, size, work);
    solve(work, n.count as usize, m, allowed)
}
