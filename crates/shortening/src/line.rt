// The words of a line, by their places in the sheet.
ghost use Rattle.std.specs.Prelude.{◌≤◌, ◌<◌, length};
ghost use Rattle.syntax.specs.Signatures.{signature_in};
ghost use Rattle.clauses.specs.Names.{Readable};
ghost use Rattle.shortening.specs.Spans.{CodeOf, NextWord};

use clauses::words::word_of;
use syntax::signature::Signature;
use text::lines::word_end;

// A word's code, and where the word ends.
#[derive(Drop)]
pub struct LineWord {
    pub code: u8,
    pub end: usize,
}

// The word that starts at a place of a line that ends at another.
pub fn next_word(sheet: &[u8], signature: Signature, at: usize, to: usize) -> LineWord
    requires { Readable sheet.now signature × ((at < to) × (to ≤ length sheet.now)) }
    ensures { NextWord (signature_in sheet.now signature) sheet.now at to result }
{
    let end = at + word_end(&sheet[at..to], 0);
    LineWord {
        code: code_of(sheet, signature, &sheet[at..end]),
        end,
    }
}

// The code of a word that is known.
fn code_of(sheet: &[u8], signature: Signature, word: &[u8]) -> u8
    requires { Readable sheet.now signature }
    ensures { CodeOf (signature_in sheet.now signature) word.now result }
{
    word_of(sheet, signature, word).unwrap_or(0)
}
