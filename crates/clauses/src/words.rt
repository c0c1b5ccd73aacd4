// One word of a clause line.
ghost use Rattle.std.specs.Prelude.{◌≡◌};
ghost use Rattle.syntax.specs.Signatures.{signature_in};
ghost use Rattle.clauses.specs.Names.{Readable};
ghost use Rattle.clauses.specs.Words.{is_fixed, is_fixed_word, WordRead};

use crate::names::find_name;
use syntax::limits::Problem;
use syntax::signature::Signature;
use syntax::words::ClauseWords;

// the byte after those of the variable letters
const PAST_LETTERS: u8 = b'A' + Problem::MAX_LETTERS as u8;

// The word that these bytes are.
pub fn word_of(sheet: &[u8], signature: Signature, word: &[u8]) -> Option<u8>
    requires { Readable sheet.now signature }
    ensures { WordRead (signature_in sheet.now signature) word.now result }
{
    if word.len() == 0 {
        return None;
    }
    if is_fixed_word(word) {
        return Some(ClauseWords::MAX_PLACES + word[0]);
    }
    let i = find_name(sheet, signature, word)?;
    Some(i as u8)
}

// The word is +, -, = or a variable letter.
fn is_fixed_word(word: &[u8]) -> bool
    ensures { result ≡ is_fixed_word word.now }
{
    matches!(word, [b] if is_fixed(*b))
}

// The byte is one of theirs.
fn is_fixed(b: u8) -> bool
    ensures { result ≡ is_fixed b }
{
    matches!(b, b'+' | b'-' | b'=' | b'A'..PAST_LETTERS)
}
