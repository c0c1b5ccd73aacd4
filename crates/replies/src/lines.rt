// The lines of a reply: one s line, then v lines; lines that begin with c are ignored.
ghost use Rattle.std.specs.Prelude.{◌≡◌, List, ℕ, ◌^◌, ◌<◌, length};
ghost use Rattle.theory.specs.Program.{◌>>?◌};
ghost use Rattle.solver.specs.OnePass.{on_end, hear, hear_said, listing, unanswered, on_line, on_said};
ghost use Rattle.replies.specs.Hearing.{heard_in, values_in};

use crate::stages::Stage;
use crate::words::hear_words;
use text::lines::{line_end, starts_with};

// All lines of a text.
pub fn hear_lines(text: &[u8], marks: &mut [u8]) -> Stage
    requires { length marks.old < 2 ^ 28 }
    ensures { (heard_in result marks.new >>? on_end) ≡ hear unanswered (values_in marks.old) text.now }
{
    let mut stage = Stage::Unanswered;
    let mut at: usize = 0;
    while at < text.len() {
        let end = line_end(text, at);
        if end == text.len() {
            return Stage::Fault;
        }
        stage = hear_line(&text[at..end], stage, marks);
        at = end + 1;
    }
    stage
}

// One line more.
fn hear_line(line: &[u8], stage: Stage, marks: &mut [u8]) -> Stage
    requires { length marks.old < 2 ^ 28 }
    ensures { heard_in result marks.new ≡ (heard_in stage marks.old >>? on_line line.now) }
{
    if starts_with(line, b"c") {
        return stage;
    }
    hear_said(line, stage, marks)
}

// A line that is no comment; none is due after the claim that there is no model, nor after the 0.
fn hear_said(line: &[u8], stage: Stage, marks: &mut [u8]) -> Stage
    requires { length marks.old < 2 ^ 28 }
    ensures { heard_in result marks.new ≡ (heard_in stage marks.old >>? on_said line.now) }
{
    match stage {
        Stage::Unanswered => hear_claim(line),
        Stage::Listing => hear_values(line, marks),
        Stage::Refuted => Stage::Fault,
        Stage::Complete | Stage::Fault => Stage::Fault,
    }
}

// The s line.
fn hear_claim(line: &[u8]) -> Stage
    ensures { (marks : List ℕ) → heard_in result marks ≡ hear_said unanswered (values_in marks) line.now }
{
    let satisfiable: &[u8] = b"s SATISFIABLE";
    let unsatisfiable: &[u8] = b"s UNSATISFIABLE";
    if line == satisfiable {
        return Stage::Listing;
    }
    if line == unsatisfiable {
        return Stage::Refuted;
    }
    Stage::Fault
}

// A v line.
fn hear_values(line: &[u8], marks: &mut [u8]) -> Stage
    requires { length marks.old < 2 ^ 28 }
    ensures { heard_in result marks.new ≡ hear_said listing (values_in marks.old) line.now }
{
    if !starts_with(line, b"v ") {
        return Stage::Fault;
    }
    hear_words(&line[2..], marks)
}
