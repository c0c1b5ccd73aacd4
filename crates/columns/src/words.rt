// The words of a clause line, gone through from the first on, up to one that is at fault.
ghost use Rattle.std.specs.Prelude.{◌≡◌, true, not, ◌+◌, ◌≤◌, ◌<◌, ◌^◌};
ghost use Rattle.std.proofs.Math.Option.{some};
ghost use Rattle.theory.specs.Grammar.{terms};
ghost use Rattle.syntax.specs.Signatures.{signature_in};
ghost use Rattle.clauses.specs.Names.{Readable};
ghost use Rattle.clauses.specs.Grammar.{due_in, pending};
ghost use Rattle.columns.specs.Words.{is_known_word, known_after, due_after_word, is_stuck, signs_in, with_word, are_over, Stopped};

use clauses::grammar::{Due, after};
use clauses::words::word_of;
use syntax::limits::Problem;
use syntax::signature::Signature;
use word_reader::WordReader;

// Where the first word that is unknown starts behind the line's key, if there is one.
pub fn first_unknown(sheet: &[u8], signature: Signature, value: &[u8]) -> Option<usize>
    requires { Readable sheet.now signature }
    ensures { Stopped (known_after (signature_in sheet.now signature)) not true value.now result }
{
    let mut reader = WordReader::new(value);
    while reader.has_word() {
        let step = reader.next();
        if !is_known(sheet, signature, step.word) {
            return Some(reader.at);
        }
        reader = step.rest;
    }
    None
}

fn is_known(sheet: &[u8], signature: Signature, word: &[u8]) -> bool
    requires { Readable sheet.now signature }
    ensures { result ≡ is_known_word (signature_in sheet.now signature) word.now }
{
    word_of(sheet, signature, word).is_some()
}

// The first word that cannot stand where it does; an unknown one can stand nowhere.
pub fn first_misplaced(sheet: &[u8], signature: Signature, value: &[u8]) -> Option<usize>
    requires { Readable sheet.now signature }
    ensures { Stopped (due_after_word (signature_in sheet.now signature)) is_stuck (some (terms 0)) value.now result }
{
    let mut due = Some(Due::Terms(0));
    let mut reader = WordReader::new(value);
    while reader.has_word() {
        let step = reader.next();
        due = after_word(sheet, signature, due, step.word);
        if is_stuck(due) {
            return Some(reader.at);
        }
        reader = step.rest;
    }
    None
}

// What is due after one word more.
fn after_word(sheet: &[u8], signature: Signature, due: Option<Due>, word: &[u8]) -> Option<Due>
    requires { Readable sheet.now signature × (pending due + 3 < 2 ^ 64) }
    ensures due { due_in result ≡ due_after_word (signature_in sheet.now signature) (due_in due) word.now }
    ensures pending { pending result ≤ pending due + 3 }
{
    let code = word_of(sheet, signature, word)?;
    after(signature, due, code)
}

// Nothing can follow.
fn is_stuck(due: Option<Due>) -> bool
    ensures { result ≡ is_stuck (due_in due) }
{
    due.is_none()
}

// The first word with which there are more words or more literals than a clause may have.
pub fn first_over(value: &[u8]) -> Option<usize>
    ensures { Stopped with_word are_over (0, 0) value.now result }
{
    let mut words: usize = 0;
    let mut literals: usize = 0;
    let mut reader = WordReader::new(value);
    while reader.has_word() {
        let step = reader.next();
        words += 1;
        if Problem::MAX_WORDS < words {
            return Some(reader.at);
        }
        literals += signs_in(step.word);
        if Problem::MAX_LITERALS < literals {
            return Some(reader.at);
        }
        reader = step.rest;
    }
    None
}

// How many signs the word is.
fn signs_in(word: &[u8]) -> usize
    ensures { result ≡ signs_in word.now }
{
    usize::from(matches!(word, [b'+' | b'-']))
}
