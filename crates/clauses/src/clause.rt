// A clause line's words: read to their codes, held to the grammar and to the limits.
ghost use Rattle.std.specs.Prelude.{◌≡◌, true, false, List, ℕ, set};
ghost use Rattle.theory.specs.Lines.{cut_words, words_of};
ghost use Rattle.theory.specs.Problem.{within_limits};
ghost use Rattle.syntax.specs.Signatures.{signature_in};
ghost use Rattle.syntax.specs.Codes.{code_word};
ghost use Rattle.clauses.specs.Names.{Limited, Readable};
ghost use Rattle.clauses.specs.Words.{is_code};
ghost use Rattle.clauses.specs.Clauses.{sign_count, WordsBounded, Extends, no_words, codes_of, WordAdded, WordsRead, WholeClause, ClauseRead};

use crate::grammar::{Due, after, is_finished};
use crate::words::word_of;
use flattening::flat::variable_count;
use syntax::faults::Fault;
use syntax::limits::Problem;
use syntax::signature::Signature;
use syntax::words::ClauseWords;
use word_reader::WordReader;

// What was read of a line: the codes of its first words, up to the limit, how many words and signs, and what is due; none where a word stands where it cannot.
#[derive(Clone, Copy)]
pub struct Words {
    pub words: [u8; Problem::MAX_WORDS],
    pub count: usize,
    pub literals: usize,
    pub due: Option<Due>,
}

// The clause of what follows a clause line's key, or 5 to 7.
pub fn read_clause(sheet: &[u8], signature: Signature, value: &[u8]) -> Result<ClauseWords, Fault>
    requires { Readable sheet.now signature }
    ensures { ClauseRead (signature_in sheet.now signature) value.now result }
{
    let w = read_words(sheet, signature, value).ok_or(Fault::Word)?;
    let due = w.due;
    if !is_finished(due) {
        return Err(Fault::Clause);
    }
    if !within_limits(signature, w) {
        return Err(Fault::ClauseLimits);
    }
    Ok(kept_codes(w))
}

// Whether the words of a clause are within the limits.
pub fn within_limits(signature: Signature, w: Words) -> bool
    requires { WholeClause signature w }
    ensures { (s : WholeClause signature w) → result ≡ within_limits s.words s.clause }
{
    if Problem::MAX_WORDS < w.count {
        return false;
    }
    if Problem::MAX_LITERALS < w.literals {
        return false;
    }
    let arities = signature.arities();
    variable_count(kept_codes(w), &arities) <= Problem::MAX_VARIABLES
}

// The codes that were kept.
pub fn kept_codes(w: Words) -> ClauseWords
    ensures { result ≡ codes_of w }
{
    let words = w.words;
    ClauseWords {
        words,
        count: w.count,
    }
}

// The words of a line, if all are known; an empty line has none.
pub fn read_words(sheet: &[u8], signature: Signature, value: &[u8]) -> Option<Words>
    requires { Readable sheet.now signature }
    ensures { WordsRead (signature_in sheet.now signature) (words_of value.now) result }
{
    if value.len() == 0 {
        return Some(no_words());
    }
    take_words(sheet, signature, value)
}

// The words between a line's spaces, however many: one reader hands them out, from the first to the last.
fn take_words(sheet: &[u8], signature: Signature, value: &[u8]) -> Option<Words>
    requires { Readable sheet.now signature }
    ensures { WordsRead (signature_in sheet.now signature) (cut_words value.now) result }
{
    let mut w = no_words();
    let mut reader = WordReader::new(value);
    while reader.has_word() {
        let step = reader.next();
        w = with_word(sheet, signature, w, step.word)?;
        reader = step.rest;
    }
    Some(w)
}

// Nothing was read.
pub fn no_words() -> Words
    ensures { result ≡ no_words }
{
    Words {
        words: [0; Problem::MAX_WORDS],
        count: 0,
        literals: 0,
        due: Some(Due::Terms(0)),
    }
}

// One word more, if it is known.
fn with_word(sheet: &[u8], signature: Signature, w: Words, word: &[u8]) -> Option<Words>
    requires { Readable sheet.now signature × WordsBounded w }
    ensures { WordAdded (signature_in sheet.now signature) word.now w result }
{
    let code = word_of(sheet, signature, word)?;
    Some(with_code(signature, w, code))
}

// One more word, by its code.
pub fn with_code(signature: Signature, w: Words, code: u8) -> Words
    requires { Limited signature × ((is_code signature.count code ≡ true) × WordsBounded w) }
    ensures { (sheet : List ℕ) → Extends (signature_in sheet signature) w (code_word code) result }
{
    let words = w.words;
    let due = w.due;
    Words {
        words: stored(words, w.count, code),
        count: w.count + 1,
        literals: w.literals + signs(code),
        due: after(signature, due, code),
    }
}

// The code in its place, if there is one.
fn stored(mut words: [u8; Problem::MAX_WORDS], n: usize, code: u8) -> [u8; Problem::MAX_WORDS]
    ensures { result ≡ set words n code }
{
    if n < Problem::MAX_WORDS {
        words[n] = code;
    }
    words
}

// How many signs the word is.
fn signs(code: u8) -> usize
    ensures { result ≡ sign_count (code_word code) }
{
    match code {
        ClauseWords::PLUS | ClauseWords::MINUS => 1,
        _ => 0,
    }
}
