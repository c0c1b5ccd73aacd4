// Runs of bytes of a class, and whether a byte stands at a place.
ghost use Rattle.std.specs.Prelude.{◌≡◌, ◌+◌, not, ◌≤◌, eqb, length, drop};
ghost use Rattle.theory.specs.Bytes.{LF, is_digit};
ghost use Rattle.tptp.specs.Tokens.{is_word_byte, run, starts_with};

use crate::classes::is_word_byte;
use text::numbers::is_digit;

// How many bytes from a place on go on with a word.
pub fn word_run(text: &[u8], at: usize) -> usize
    requires { at ≤ length text.now }
    ensures value { result ≡ run is_word_byte (drop at text.now) }
    ensures within { at + result ≤ length text.now }
{
    text[at..].iter().take_while(|b| is_word_byte(**b)).count()
}

// How many bytes from a place on are digits.
pub fn digit_run(text: &[u8], at: usize) -> usize
    requires { at ≤ length text.now }
    ensures value { result ≡ run is_digit (drop at text.now) }
    ensures within { at + result ≤ length text.now }
{
    text[at..].iter().take_while(|b| is_digit(**b)).count()
}

// How many bytes from a place on stand before the line's end.
pub fn line_run(text: &[u8], at: usize) -> usize
    requires { at ≤ length text.now }
    ensures value { result ≡ run (λ c. not (eqb c LF)) (drop at text.now) }
    ensures within { at + result ≤ length text.now }
{
    text[at..].iter().take_while(|b| **b != b'\n').count()
}

// Whether this byte stands at a place.
pub fn byte_is(text: &[u8], at: usize, b: u8) -> bool
    ensures { result ≡ starts_with (eqb b) (drop at text.now) }
{
    text.get(at) == Some(&b)
}

// Whether a digit stands at a place.
pub fn digit_is(text: &[u8], at: usize) -> bool
    ensures { result ≡ starts_with is_digit (drop at text.now) }
{
    text.get(at).is_some_and(|b| is_digit(*b))
}
