// The words of a v line: each number sets its variable, which must be there and unset; 0 is the last.
ghost use Rattle.std.specs.Prelude.{◌≡◌, ℕ, suc, ◌^◌, ◌≤◌, ◌<◌, length, Some};
ghost use Rattle.theory.specs.Lines.{cut_words};
ghost use Rattle.theory.specs.Options.{told};
ghost use Rattle.theory.specs.Program.{◌>>?◌};
ghost use Rattle.solver.specs.OnePass.{hear_literal, hear_number, hear_words, listing, on_word};
ghost use Rattle.replies.specs.Hearing.{heard_in, literal_for, values_in};

use crate::numbers::number_within;
use crate::stages::Stage;
use indices::PropVar;
use text::lines::starts_with;
use word_reader::WordReader;

// The mark of a variable that is not set; of one that is, it is 1 for yes and 0 for no.
pub const UNSET: u8 = 2;

// All words of a v line, among the numbers.
pub fn hear_words(value: &[u8], marks: &mut [u8]) -> Stage
    requires { length marks.old < 2 ^ 28 }
    ensures { heard_in result marks.new ≡ hear_words listing (values_in marks.old) (cut_words value.now) }
{
    let mut stage = Stage::Listing;
    let mut reader = WordReader::new(value);
    while reader.has_word() {
        let step = reader.next();
        stage = hear_word(step.word, stage, marks);
        reader = step.rest;
    }
    stage
}

// One word more; none is due after the 0.
fn hear_word(word: &[u8], stage: Stage, marks: &mut [u8]) -> Stage
    requires { length marks.old < 2 ^ 28 }
    ensures { heard_in result marks.new ≡ (heard_in stage marks.old >>? on_word word.now) }
{
    match stage {
        Stage::Listing => hear_number(word, marks),
        Stage::Complete => Stage::Fault,
        Stage::Unanswered | Stage::Refuted | Stage::Fault => Stage::Fault,
    }
}

// A word among the numbers.
fn hear_number(word: &[u8], marks: &mut [u8]) -> Stage
    requires { length marks.old < 2 ^ 28 }
    ensures { heard_in result marks.new ≡ hear_number (values_in marks.old) word.now }
{
    let end: &[u8] = b"0";
    if word == end {
        return Stage::Complete;
    }
    if starts_with(word, b"-") {
        let n = number_within(word, 1, marks.len());
        return hear_literal(n, false, marks);
    }
    let n = number_within(word, 0, marks.len());
    hear_literal(n, true, marks)
}

// The number n with its sign.
fn hear_literal(n: Option<usize>, yes: bool, marks: &mut [u8]) -> Stage
    requires { ((k : ℕ) → n ≡ Some k → (1 ≤ k) × (k ≤ length marks.old)) × (length marks.old < 2 ^ 28) }
    ensures { heard_in result marks.new ≡ (told n >>? λ k. hear_literal (values_in marks.old) (literal_for yes k)) }
{
    match n {
        Some(n) => set_once(PropVar((n - 1) as u32), yes, marks),
        None => Stage::Fault,
    }
}

// The variable is set, if it is not yet.
fn set_once(variable: PropVar, yes: bool, marks: &mut [u8]) -> Stage
    requires { variable.0 < length marks.old }
    ensures { heard_in result marks.new ≡ hear_literal (values_in marks.old) (literal_for yes (suc variable.0)) }
{
    let i = variable.0 as usize;
    if marks[i] < UNSET {
        return Stage::Fault;
    }
    marks[i] = u8::from(yes);
    Stage::Listing
}
