// The words of a line, handed out one at a time: a reader holds the line and a place in it.
// Each function over the reader takes it apart; the work is `word_at`'s, on a line and a number.
#![tactic(auto)]

ghost use Rattle.std.specs.Prelude.{◌≡◌, ◌≤◌, leb, length};
ghost use Rattle.word_reader.specs.WordsLeft.{FirstWord, Handed};

use text::lines::word_end;

#[derive(Clone, Copy)]
pub struct WordReader<'a> {
    pub line: &'a [u8],
    pub at: usize,
}

// A word, and the reader behind it.
#[derive(Drop)]
pub struct Step<'a> {
    pub word: &'a [u8],
    pub rest: WordReader<'a>,
}

impl<'a> WordReader<'a> {
    // A reader at the line's first word.
    pub fn new(line: &'a [u8]) -> WordReader<'a>
        ensures { (result.line ≡ line.entry) × (result.at ≡ 0) }
    {
        WordReader { line, at: 0 }
    }

    // Whether a word is left.
    pub fn has_word(self) -> bool
        ensures { result ≡ leb self.entry.at (length self.entry.line.now) }
    {
        self.at <= self.line.len()
    }

    // The word at the reader's place, and the reader behind that word and the space after it.
    pub fn next(self) -> Step<'a>
        requires { self.at ≤ length self.line.now }
        ensures { Handed self.entry result }
    {
        let word = word_at(self.line, self.at);
        Step {
            word,
            rest: WordReader {
                line: self.line,
                at: self.at + word.len() + 1,
            },
        }
    }
}

// The word that begins at a place of a line.
fn word_at<'a>(line: &'a [u8], at: usize) -> &'a [u8]
    requires { at ≤ length line.now }
    ensures { FirstWord line.now at result.now }
{
    let end = word_end(line, at);
    &line[at..end]
}
