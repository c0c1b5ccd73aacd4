// From TPTP: a text of TPTP clauses read into a sheet. The statements are surveyed up to the first fault, the lines of their clauses kept; of a clean
// text the sheet is measured, and written where it fits.
#![tactic(auto)]

pub mod faults;
pub mod noting;
pub mod sheet;
pub mod survey;
pub mod words;

ghost use Rattle.std.specs.Prelude.{◌≡◌, ℕ, ◌≤◌, List, length};
ghost use Rattle.theory.specs.Refusals.{refused};
ghost use Rattle.syntax.specs.Faults.{number_of};
ghost use Rattle.answers.specs.Answers.{refusal_in};
ghost use Rattle.tptp.specs.Places.{refused_at};
ghost use Rattle.importing.specs.Calls.{TptpCall};
ghost use Rattle.importing.specs.Surveys.{Surveyed};

use answers::{Refusal, WriteAnswer, at_place, needing};
use argument_lists::pass::{LISTS, Lists};
use faults::TextFault;
use sheet::{put_sheet, sheet_length};
use survey::{Survey, survey_statements};
use syntax::faults::Fault;
use syntax::limits::Problem;
use tokens::places::place_of;

// The sheet of the clauses, at the front of the output.
pub fn import_clauses(text: &[u8], output: &mut [u8]) -> WriteAnswer
    ensures { TptpCall text.now result output.old output.new }
{
    let mut lines = [0u8; Problem::MAX_BYTES];
    let surveyed = survey_of(text, &mut lines);
    let survey = surveyed.map_err(|f| refused_at(text, f.fault, f.place))?;
    let length = sheet_length(survey);
    if Problem::MAX_BYTES < length {
        return Err(refused_at(text, Fault::TextLimits, text.len()));
    }
    if output.len() < length {
        return Err(needing(Fault::OutputLength, length));
    }
    put_sheet(output, text, &lines, survey);
    Ok(length)
}

// The survey of a text, with room for the lists that it notes.
fn survey_of(text: &[u8], lines: &mut [u8]) -> Result<Survey, TextFault>
    ensures { Surveyed text.now lines.new result }
{
    let mut counts = [0u8; LISTS];
    let mut links = [0u16; LISTS];
    let mut lists = Lists {
        counts: &mut counts,
        links: &mut links,
    };
    survey_statements(text, lines, &mut lists)
}

// A refusal at the byte with n bytes before it.
fn refused_at(text: &[u8], fault: Fault, n: usize) -> Refusal
    requires { n ≤ length text.now }
    ensures { refused (refusal_in result) ≡ refused_at {A = List ℕ} text.now (number_of fault) n }
{
    let place = place_of(text, n);
    at_place(fault, place.line, place.column)
}
