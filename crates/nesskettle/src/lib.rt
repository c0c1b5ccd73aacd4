// The operations of documents 01 and 02. Each answers every byte string, number and lent buffer with a result or a numbered refusal, and ends. A promise is a record of `answers/specs/Calls` (Find's of
// `finding/specs/Calls`, From TPTP's of `importing/specs/Calls`, From solver's of `accepting/specs/Calls`, Merge's of `uniting/specs/Calls`, Renumber's and Least form's of `case_forms/specs/Calls`): equations
// with the definitions of `theory/specs/Operations`, `naming/specs/NamedOperations`, `symmetry/specs/SymmetricOperations`, `allowance/specs/AllowedFind`, `theory/specs/PlainSearch`, `tptp/specs/Tptp`,
// `solver/specs/SolverText`, `sheet_merging/specs/Merging` and `renumbered_cases/specs/RenumberedCases`, where `answers/specs/Answers` says what each answer means. What is lent as `&` cannot change; what is
// lent as `&mut` is told to the last byte and number. What the promises come to, the three demands and what is asked of each call, is proved of these records in `theorems/specs`.
#![tactic(auto)]

ghost use Rattle.answers.specs.Calls.{ExplainCall, JudgeCall, PlainCall, ReadBackCall, ReadCall, SettingCall, WriteCall};
ghost use Rattle.case_forms.specs.Calls.{LeastFormCall, RenumberCall};
ghost use Rattle.finding.specs.Calls.{FindCall};
ghost use Rattle.importing.specs.Calls.{TptpCall};
ghost use Rattle.accepting.specs.Calls.{FromSolverCall};
ghost use Rattle.uniting.specs.Calls.{MergeCall};

use accepting::{SolverAnswer, accept_answer};
use answers::{ExplainAnswer, FindAnswer, JudgeAnswer, ReadAnswer, WriteAnswer};
use case_forms::least::write_least_form;
use case_forms::renumber::renumber_case;
use finding::allowed::AllowedAnswer;
use finding::find_model;
use importing::import_clauses;
use judging::explain::explain_case;
use judging::verdict::judge_case;
use plain::find_plainly;
use reading::read_counts;
use reading_back::setting::read_setting_back;
use settings::setting::write_case_setting;
use uniting::merge::{MergeAnswer, merge_sheets};
use writing::write_clauses;

// Read: the sheet's counts.
pub fn read(sheet: &[u8]) -> ReadAnswer
    ensures { ReadCall sheet.now result }
{
    read_counts(sheet)
}

// Judge: whether the case is a model of the sheet.
pub fn judge(sheet: &[u8], case: &[u8]) -> JudgeAnswer
    ensures { JudgeCall sheet.now case.now result }
{
    judge_case(sheet, case)
}

// Explain: whether the case is a model of the sheet, and where it is none the first clause that fails, with the first choice of values for its letters.
pub fn explain(sheet: &[u8], case: &[u8]) -> ExplainAnswer
    ensures { ExplainCall sheet.now case.now result }
{
    explain_case(sheet, case)
}

// Write: the clauses of the sheet at a size, as a text at the front of the output; of its clauses as they stand, or with named terms; with the constant clauses if they are asked for.
pub fn write(sheet: &[u8], size: u64, named: bool, symmetry: bool, output: &mut [u8]) -> WriteAnswer
    ensures { WriteCall sheet.now size named symmetry result output.old output.new }
{
    write_clauses(sheet, size, named, symmetry, output)
}

// Read back: the case that the setting says, at the front of the output; a setting of Write's clauses as they stand, or with named terms.
pub fn read_back(
    sheet: &[u8],
    size: u64,
    named: bool,
    setting: &[u8],
    output: &mut [u8],
) -> WriteAnswer
    ensures { ReadBackCall sheet.now size named setting.now result output.old output.new }
{
    read_setting_back(sheet, size, named, setting, output)
}

// Setting: the setting of the case, a model or not, at the front of the output.
pub fn setting(sheet: &[u8], case: &[u8], output: &mut [u8]) -> WriteAnswer
    ensures { SettingCall sheet.now case.now result output.old output.new }
{
    write_case_setting(sheet, case, output)
}

// Renumber: the case with element d numbered as the list's d-th byte says, at the front of the output.
pub fn renumber(sheet: &[u8], case: &[u8], list: &[u8], output: &mut [u8]) -> WriteAnswer
    ensures { RenumberCall sheet.now case.now list.now result output.old output.new }
{
    renumber_case(sheet, case, list, output)
}

// Least form: the first in value order of all renumberings of the case, at the front of the output.
pub fn least_form(sheet: &[u8], case: &[u8], output: &mut [u8]) -> WriteAnswer
    ensures { LeastFormCall sheet.now case.now result output.old output.new }
{
    write_least_form(sheet, case, output)
}

// Find: the least model at the smallest size from low to high that has one, as a case at the front of the output; or none. It searches the sheet's clauses as they stand, or with named terms. Told yes
// to `symmetry` it uses the constant clauses, and what it finds is the least of the models that obey them. It is stopped exactly if it needs one more choice than the allowance.
pub fn find(
    sheet: &[u8],
    low: u64,
    high: u64,
    named: bool,
    symmetry: bool,
    allowance: u64,
    work: &mut [u32],
    output: &mut [u8],
) -> AllowedAnswer
    ensures { FindCall sheet.now low high named symmetry allowance result work.old work.new output.old output.new }
{
    find_model(sheet, low, high, named, symmetry, allowance, work, output)
}

// Find plain: what Find told no finds, by trying all cases in order, for at most 64 cells, without a work area.
pub fn find_plain(sheet: &[u8], low: u64, high: u64, output: &mut [u8]) -> FindAnswer
    ensures { PlainCall sheet.now low high result output.old output.new }
{
    find_plainly(sheet, low, high, output)
}

// From TPTP: the sheet of a text of TPTP clauses, at the front of the output.
pub fn from_tptp(text: &[u8], output: &mut [u8]) -> WriteAnswer
    ensures { TptpCall text.now result output.old output.new }
{
    import_clauses(text, output)
}

// From solver: the case of an outside solver's answer, if it is a model, at the front of the output; or the solver's claim that there is none.
pub fn from_solver(sheet: &[u8], size: u64, text: &[u8], output: &mut [u8]) -> SolverAnswer
    ensures { FromSolverCall sheet.now size text.now result output.old output.new }
{
    accept_answer(sheet, size, text, output)
}

// Merge: two sheets made one, at the front of the output.
pub fn merge(first: &[u8], second: &[u8], output: &mut [u8]) -> MergeAnswer
    ensures { MergeCall first.now second.now result output.old output.new }
{
    merge_sheets(first, second, output)
}
