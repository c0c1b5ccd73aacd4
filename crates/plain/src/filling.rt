// The plain engine at one size: cells are filled in order, the least value first, and a full case is judged.
ghost use Rattle.std.specs.Prelude.{◌≡◌};
ghost use Rattle.theory.specs.Least.{least_model};
ghost use Rattle.problem.specs.Problems.{problem_in};
ghost use Rattle.judging.specs.Cases.{CellsLent, is_model_in};
ghost use Rattle.plain.specs.Filling.{Fillable, Searchable, filled_from, filling, model_in};

use crate::cells::{PlainCells, choices_of};
use judging::failures::case_failure;
use syntax::limits::Problem;
use syntax::size::DomainSize;

// The least model of a size: all cells are filled, from the first on.
pub fn least_model(sheet: &[u8], p: Problem, size: DomainSize) -> Option<PlainCells>
    requires { Searchable sheet.now p size.0 }
    ensures { model_in sheet.now p size.0 result ≡ least_model size.0 (problem_in sheet.now p) }
{
    let signature = p.signature;
    let choices = choices_of(signature, size);
    let values = choices.values;
    let count = choices.count;
    let cells = PlainCells {
        values: [0; PlainCells::MAX],
    };
    fill(sheet, p, size, &values[0..count], cells, 0).ok()
}

// Fills the cells from `at` on to a model, or hands the tables back as they were; `choices` says how many values each cell has. The tables are copied
// before each guess, and the old ones restored after one that leads to no model.
pub fn fill(
    sheet: &[u8],
    p: Problem,
    size: DomainSize,
    choices: &[u8],
    mut cells: PlainCells,
    at: usize,
) -> Result<PlainCells, PlainCells>
    requires { Fillable sheet.now p size.0 choices.now cells.values at }
    ensures { result ≡ filling cells at (filled_from sheet.now p size.0 choices.now cells.values at) }
{
    if choices.len() <= at {
        if is_model(sheet, p, cells, size) {
            return Ok(cells);
        }
        return Err(cells);
    }
    let count = choices[at];
    for d in 0..count {
        let old = cells;
        cells.values[at] = d;
        let model = fill(sheet, p, size, choices, cells, at + 1);
        if model.is_ok() {
            return model;
        }
        cells = old;
    }
    Err(cells)
}

// No clause fails in the interpretation that the first cells are.
fn is_model(sheet: &[u8], p: Problem, cells: PlainCells, size: DomainSize) -> bool
    requires { CellsLent sheet.now p cells.values size.0 }
    ensures { result ≡ is_model_in sheet.now p cells.values size.0 }
{
    let values = cells.values;
    case_failure(sheet, p, &values, size).is_none()
}
