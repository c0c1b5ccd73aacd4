// From solver: a case from an outside solver's answer, which is believed only as far as it is checked: 18, 14, 19, 11, in this order.
#![tactic(auto)]

pub mod cells;

ghost use Rattle.std.specs.Prelude.{◌≤◌, length};
ghost use Rattle.accepting.specs.Calls.{FromSolverCall};
ghost use Rattle.accepting.specs.Accepting.{ReplyCall, SettingLent, SizedProblem, StatedCall};

use answers::{Refusal, at_line, needing};
use cases::writing::case_length;
use cells::is_model;
use columns::opened::open_sheet;
use reading_back::tables::Bits;
use reading_back::writing::write_case;
use replies::{Reply, read_reply};
use syntax::faults::Fault;
use syntax::limits::Problem;
use syntax::size::DomainSize;
use valuations::numbering::{Numbering, numbering_of};
use valuations::valuation::is_functional;

// The length of the case, or the solver's claim that there is no model.
#[derive(Clone, Copy)]
pub enum SolverResult {
    Case(usize),
    ClaimedNone,
}

pub type SolverAnswer = Result<SolverResult, Refusal>;

// The propositional variables of a sheet's symbols, at most 12 of a kind: the bytes of the longest setting.
pub const MAX_SETTING: usize = Problem::MAX_OF_A_KIND
    * (Problem::MAX_TABLE_BITS + Problem::MAX_TABLE);

// The sheet's refusals, 8, then what comes of the solver's text.
pub fn accept_answer(sheet: &[u8], size: u64, text: &[u8], output: &mut [u8]) -> SolverAnswer
    ensures { FromSolverCall sheet.now size text.now result output.old output.new }
{
    let p = open_sheet(sheet, false)?;
    let Some(s) = DomainSize::checked(size as usize) else {
        return Err(at_line(Fault::Size, 0));
    };
    accept_reply(sheet, p, s, text, output)
}

// 18, claimed none, or what comes of the setting that is stated.
fn accept_reply(
    sheet: &[u8],
    p: Problem,
    size: DomainSize,
    text: &[u8],
    output: &mut [u8],
) -> SolverAnswer
    requires { SizedProblem sheet.now p size.0 }
    ensures { ReplyCall sheet.now p size.0 text.now result output.old output.new }
{
    let mut marks = [0u8; MAX_SETTING];
    accept_marked(sheet, p, size, text, &mut marks, output)
}

// The same, with room for a mark of each variable.
fn accept_marked(
    sheet: &[u8],
    p: Problem,
    size: DomainSize,
    text: &[u8],
    marks: &mut [u8],
    output: &mut [u8],
) -> SolverAnswer
    requires { SizedProblem sheet.now p size.0 × (55296 ≤ length marks.old) }
    ensures { ReplyCall sheet.now p size.0 text.now result output.old output.new }
{
    let signature = p.signature;
    let n = numbering_of(signature, size);
    let count = n.count as usize;
    match read_reply(text, &mut marks[0..count]) {
        Reply::Bad => Err(at_line(Fault::Reply, 0)),
        Reply::ClaimsNone => Ok(SolverResult::ClaimedNone),
        Reply::States => accept_setting(sheet, p, n, size, &marks[0..count], output),
    }
}

// 14, 19, 11, or the case that the setting says.
fn accept_setting(
    sheet: &[u8],
    p: Problem,
    n: Numbering,
    size: DomainSize,
    setting: &[u8],
    output: &mut [u8],
) -> SolverAnswer
    requires { SettingLent sheet.now p n size.0 setting.now }
    ensures { StatedCall sheet.now p size.0 setting.now result output.old output.new }
{
    let signature = p.signature;
    if !is_functional(setting, signature, n, size) {
        return Err(at_line(Fault::Cell, 0));
    }
    if !is_model(sheet, p, n, size, setting) {
        return Err(at_line(Fault::NoModel, 0));
    }
    let length = case_length(signature, size);
    if output.len() < length {
        return Err(needing(Fault::OutputLength, length));
    }
    let bits = Bits::Setting(setting);
    let written = write_case(sheet, signature, n, size, bits, output);
    Ok(SolverResult::Case(written))
}
