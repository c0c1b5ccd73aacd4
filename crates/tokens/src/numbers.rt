// What makes the digits before it a rational or a real: TPTP's numbers that this part of it lacks.
ghost use Rattle.std.specs.Prelude.{◌≡◌, ◌+◌, ◌||◌, ◌≤◌, eqb, length, drop};
ghost use Rattle.tptp.specs.Tokens.{starts_with, ratio, fraction, sign_length, exponent, number_rest};

use crate::runs::{byte_is, digit_is, digit_run};

// The length of / and digits, the first not 0.
fn ratio_length(text: &[u8], at: usize) -> usize
    ensures { result ≡ ratio (drop at text.now) }
{
    if byte_is(text, at, b'/') && digit_is(text, at + 1) && !byte_is(text, at + 1, b'0') {
        return 1 + digit_run(text, at + 1);
    }
    0
}

// The length of . and digits.
fn fraction_length(text: &[u8], at: usize) -> usize
    ensures { result ≡ fraction (drop at text.now) }
{
    if byte_is(text, at, b'.') && digit_is(text, at + 1) {
        return 1 + digit_run(text, at + 1);
    }
    0
}

// The length of an exponent's sign.
fn sign_length(text: &[u8], at: usize) -> usize
    ensures { result ≡ sign_length (drop at text.now) }
{
    match text.get(at) {
        Some(b'+' | b'-') => 1,
        _ => 0,
    }
}

// Whether an exponent begins at a place.
fn begins_exponent(text: &[u8], at: usize) -> bool
    ensures { result ≡ starts_with (λ b. eqb b 101 || eqb b 69) (drop at text.now) }
{
    matches!(text.get(at), Some(b'e' | b'E'))
}

// The length of e or E, perhaps a sign, and digits.
fn exponent_length(text: &[u8], at: usize) -> usize
    ensures { result ≡ exponent (drop at text.now) }
{
    if !begins_exponent(text, at) {
        return 0;
    }
    let n = sign_length(text, at + 1);
    if !digit_is(text, at + 1 + n) {
        return 0;
    }
    1 + n + digit_run(text, at + 1 + n)
}

// The length of what makes the digits before this place a rational or a real.
pub fn number_rest(text: &[u8], at: usize) -> usize
    requires { at ≤ length text.now }
    ensures value { result ≡ number_rest (drop at text.now) }
    ensures within { at + result ≤ length text.now }
{
    let n = ratio_length(text, at);
    let f = fraction_length(text, at);
    n + f + exponent_length(text, at + f)
}
