// Judging a problem: the first clause and the first choice of values under which it fails.
ghost use Rattle.std.specs.Prelude.{◌≡◌};
ghost use Rattle.theory.specs.Cells.{judged};
ghost use Rattle.problem.specs.Problems.{problem_in};
ghost use Rattle.judging.specs.Cases.{CellsLent, judged_in};
ghost use Rattle.judging.specs.Failures.{ProblemLent, failure_in};

use interpretation::tables::tables_of;
use interpretation::vector::{ArgumentVector, power};
use problem::clause_lines::clause_words;
use syntax::limits::Problem;
use syntax::size::DomainSize;
use syntax::variables::variables_of;
use truth::values::clause_value;

// A clause, counted from 0, and a choice of values under which it fails.
#[derive(Drop)]
pub struct Failure {
    pub clause: usize,
    pub values: ArgumentVector,
}

// One walk over the clauses and, inside, the choices of values of each, the last variable fastest; left at the first failure.
pub fn first_failure(
    sheet: &[u8],
    p: Problem,
    arities: &[u8],
    functions: &[bool],
    bases: &[usize],
    cells: &[u8],
    size: DomainSize,
) -> Option<Failure>
    requires { ProblemLent sheet.now p arities.now functions.now bases.now cells.now size.0 }
    ensures { failure_in result ≡ judged size.0 (problem_in sheet.now p).symbols (problem_in sheet.now p).clauses cells.now }
{
    let mut failure = None;
    'walk: for k in 0..p.count {
        let c = clause_words(sheet, p, k);
        let variables = variables_of(c);
        let words = c.words;
        let length = c.count;
        let place = variables.place;
        let count = variables.count;
        let choices = power(size.0, count);
        let mut values = ArgumentVector::first(count, size);
        for _i in 0..choices {
            let digits = values.digits;
            if !clause_value(
                &words[0..length],
                &place,
                arities,
                functions,
                bases,
                cells,
                size,
                &digits[0..count],
            ) {
                failure = Some(Failure { clause: k, values });
                break 'walk;
            }
            values = values.step();
        }
    }
    failure
}

// The first failure in the interpretation that the first cells are.
pub fn case_failure(sheet: &[u8], p: Problem, cells: &[u8], size: DomainSize) -> Option<Failure>
    requires { CellsLent sheet.now p cells.now size.0 }
    ensures { failure_in result ≡ judged_in sheet.now p cells.now size.0 }
{
    let signature = p.signature;
    let t = tables_of(signature, size);
    let arities = t.arities;
    let functions = t.functions;
    let bases = t.bases;
    let count = t.cells;
    first_failure(
        sheet,
        p,
        &arities,
        &functions,
        &bases,
        &cells[0..count],
        size,
    )
}
