// The variables of a clause: each letter's place in order of first appearance.
ghost use Rattle.std.specs.Prelude.{◌≡◌, true, List, ◌++◌, ◌≤◌, ◌<◌, ℕ};
ghost use Rattle.theory.specs.Lists.{all, distinct};
ghost use Rattle.theory.specs.Problem.{max_words};
ghost use Rattle.syntax.specs.Codes.{past_letters, code_word};
ghost use Rattle.syntax.specs.Variables.{CodesBelow, Places, is_letter, letter_of, variables_in};

use crate::limits::Problem;
use crate::words::ClauseWords;

// How many letters the clause has, and the place of each; NONE where it does not occur.
#[derive(Drop)]
pub struct Variables {
    pub place: [u8; Problem::MAX_LETTERS],
    pub count: usize,
}

impl Variables {
    pub const NONE: u8 = Problem::MAX_LETTERS as u8;
}

pub fn variables_of(c: ClauseWords) -> Variables
    requires { (c.count ≤ max_words) × CodesBelow c }
    ensures { Places (variables_in c) result }
{
    let mut found = Variables {
        place: [Variables::NONE; Problem::MAX_LETTERS],
        count: 0,
    };
    for i in 0..c.count {
        found = with_word(found, c.words[i]);
    }
    found
}

// The letters with those of one more word.
fn with_word(mut found: Variables, word: u8) -> Variables
    requires { (word < past_letters) × (found.count ≤ max_words) }
    ensures { (xs : List ℕ) → all is_letter xs ≡ true → Places (distinct xs) found → Places (distinct (xs ++ letter_of (code_word word))) result }
{
    if word < ClauseWords::LETTER {
        return found;
    }
    let x = (word - ClauseWords::LETTER) as usize;
    if found.place[x] < Variables::NONE {
        return found;
    }
    let n = found.count;
    found.place[x] = n as u8;
    found.count = n + 1;
    found
}
