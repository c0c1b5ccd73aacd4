// Classes of bytes: what a word goes on with, and what parts tokens.
ghost use Rattle.std.specs.Prelude.{◌≡◌};
ghost use Rattle.tptp.specs.Tokens.{is_upper, is_word_byte, is_blank};

use text::classes::is_lower;
use text::numbers::is_digit;

pub fn is_upper(b: u8) -> bool
    ensures { result ≡ is_upper b }
{
    b.is_ascii_uppercase()
}

pub fn is_word_byte(b: u8) -> bool
    ensures { result ≡ is_word_byte b }
{
    is_lower(b) || is_upper(b) || is_digit(b) || b == b'_'
}

pub fn is_blank(b: u8) -> bool
    ensures { result ≡ is_blank b }
{
    matches!(b, b' ' | b'\t' | b'\r' | b'\n')
}
