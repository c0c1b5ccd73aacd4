// A number of any length, given up at the digit that takes it above what is asked for.
ghost use Rattle.std.specs.Prelude.{◌≡◌, ℕ, ◌^◌, ◌≤◌, ◌<◌, Some, drop};
ghost use Rattle.theory.specs.Options.{told};
ghost use Rattle.replies.specs.Hearing.{read_within};

use text::numbers::is_digit;

// The number of at least 1 and at most `most` that the word is from a place on, if it is one.
pub fn number_within(word: &[u8], at: usize, most: usize) -> Option<usize>
    requires { most < 2 ^ 28 }
    ensures number { told result ≡ read_within most (drop at word.now) }
    ensures bounds { (n : ℕ) → result ≡ Some n → (1 ≤ n) × (n ≤ most) }
{
    if word.len() <= at {
        return None;
    }
    if word[at] == b'0' {
        return None;
    }
    let mut n = 0;
    for i in at..word.len() {
        if !is_digit(word[i]) {
            return None;
        }
        n = n * 10 + (word[i] - b'0') as usize;
        if most < n {
            return None;
        }
    }
    Some(n)
}
