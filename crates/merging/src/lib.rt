// Step 1 of flattening on clause words: negative equalities of two variables are deleted, the first variable put for the second.
#![tactic(auto)]

ghost use Rattle.std.specs.Prelude.{◌≡◌, ◌≢◌, MatchOption, cond, map, ◌+◌, ◌-◌, ◌≤◌, eqb, ltb, get_or, take};
ghost use Rattle.theory.specs.Syntax.{Signature};
ghost use Rattle.theory.specs.Problem.{max_words};
ghost use Rattle.syntax.specs.Codes.{IsClause, code_word, words_in};
ghost use Rattle.merging.specs.Unequal.{is_unequal, unequal_place};
ghost use Rattle.merging.specs.Merged.{Merged, deleted_at, renamed_code, without_at};

use syntax::words::ClauseWords;

// The clause after step 1. Each round deletes four words.
pub fn merged(c: ClauseWords) -> ClauseWords
    requires { c.count ≤ max_words }
    ensures { (g : Signature) → IsClause g c → Merged g c result }
{
    let mut w = c;
    while let Some(at) = unequal_at(w) {
        w = without(w, at);
    }
    w
}

// The place of the leftmost `- = A B`.
fn unequal_at(w: ClauseWords) -> Option<usize>
    requires { w.count ≤ max_words }
    ensures { MatchOption result (unequal_place (words_in w) ≡ w.count) (λ at. (at ≡ unequal_place (words_in w)) × (at ≢ w.count)) }
{
    for at in 0..w.count.saturating_sub(3) {
        if is_unequal(
            w.words[at],
            w.words[at + 1],
            w.words[at + 2],
            w.words[at + 3],
        ) {
            return Some(at);
        }
    }
    None
}

fn is_unequal(sign: u8, equals: u8, x: u8, y: u8) -> bool
    ensures { result ≡ is_unequal (code_word sign) (code_word equals) (code_word x) (code_word y) }
{
    sign == ClauseWords::MINUS
        && equals == ClauseWords::EQUALS
        && ClauseWords::LETTER <= x
        && ClauseWords::LETTER <= y
}

// The words without the four from `at` on, their first variable put for their second in the whole clause, left of them too.
fn without(mut w: ClauseWords, at: usize) -> ClauseWords
    requires { (w.count ≤ max_words) × (at + 4 ≤ w.count) }
    ensures count { result.count ≡ w.count - 4 }
    ensures words { take result.count result.words ≡ without_at (take w.count w.words) at }
{
    let x = w.words[at + 2];
    let y = w.words[at + 3];
    for i in 0..w.count {
        w.words[i] = renamed(w.words[i], x, y);
    }
    deleted(w, at)
}

fn renamed(word: u8, x: u8, y: u8) -> u8
    ensures { result ≡ renamed_code x y word }
{
    if word == y {
        return x;
    }
    word
}

// The words without the four from `at` on: those after them move up.
fn deleted(mut w: ClauseWords, at: usize) -> ClauseWords
    requires { (w.count ≤ max_words) × (at + 4 ≤ w.count) }
    ensures count { result.count ≡ w.count - 4 }
    ensures words { take result.count result.words ≡ deleted_at (take w.count w.words) at }
{
    let count = w.count;
    w.words.copy_within(at + 4..count, at);
    w.count = count - 4;
    w
}
