// Explain: why a case is no model of a sheet.
ghost use Rattle.answers.specs.Calls.{ExplainCall};

use crate::failures::case_failure;
use crate::reasons::reason_of;
use answers::ExplainAnswer;
use columns::opened::{open_case, open_sheet};
use syntax::limits::Problem;

// The sheet's refusals, then the case's, then the reason, if a clause fails in it.
pub fn explain_case(sheet: &[u8], case: &[u8]) -> ExplainAnswer
    ensures { ExplainCall sheet.now case.now result }
{
    let p = open_sheet(sheet, false)?;
    let mut cells = [0; Problem::MAX_CELLS];
    let size = open_case(sheet, p.signature, case, &mut cells)?;
    Ok(case_failure(sheet, p, &cells, size).map(|f| reason_of(sheet, p, f)))
}
