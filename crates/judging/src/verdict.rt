// Judge: whether a case is a model of a sheet.
ghost use Rattle.std.specs.Prelude.{◌≡◌};
ghost use Rattle.theory.specs.Operations as theory;
ghost use Rattle.answers.specs.Answers.{judge_in};

use crate::failures::case_failure;
use answers::JudgeAnswer;
use columns::opened::{open_case, open_sheet};
use syntax::limits::Problem;

// The sheet's refusals, then the case's, then yes if no clause fails in it.
pub fn judge_case(sheet: &[u8], case: &[u8]) -> JudgeAnswer
    ensures { judge_in result ≡ theory.judge_answer sheet.now case.now }
{
    let p = open_sheet(sheet, false)?;
    let mut cells = [0; Problem::MAX_CELLS];
    let size = open_case(sheet, p.signature, case, &mut cells)?;
    Ok(case_failure(sheet, p, &cells, size).is_none())
}
