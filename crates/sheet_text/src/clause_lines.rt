// A clause's line, from clause words: `clause=`, the words with one space between, LF. Each function answers a length, or the place after what it wrote.
ghost use Rattle.std.specs.Prelude.{◌≡◌, List, ℕ, ◌+◌, ◌≤◌, length};
ghost use Rattle.theory.specs.Problem.{max_name, max_words};
ghost use Rattle.theory.specs.SheetText.{word_text};
ghost use Rattle.syntax.specs.Signatures.{signature_in};
ghost use Rattle.syntax.specs.Codes.{code_word, words_in};
ghost use Rattle.text.specs.Put.{put};
ghost use Rattle.sheet_text.specs.Parts.{ShortNames, Writable, WritableWord, clause_line, spaced};

use crate::lines::put_name;
use syntax::signature::Signature;
use syntax::words::ClauseWords;
use text::writing::put_bytes;

// The length of a clause's line.
pub fn clause_line_length(signature: Signature, words: ClauseWords) -> usize
    requires { ShortNames signature × (words.count ≤ max_words) }
    ensures length { (text : List ℕ) → Writable text signature words → result ≡ length (clause_line (signature_in text signature) (words_in words)) }
    ensures short { result ≤ 840 }
{
    let mut n: usize = 8;
    for i in 0..words.count {
        n += next_word_length(signature, words.words[i], i);
    }
    n
}

// The length of a word after i others.
fn next_word_length(signature: Signature, code: u8, i: usize) -> usize
    requires { ShortNames signature }
    ensures length { (text : List ℕ) → WritableWord text signature code → result ≡ length (spaced i (word_text (signature_in text signature) (code_word code))) }
    ensures short { result ≤ max_name + 1 }
{
    if i == 0 {
        return word_length(signature, code);
    }
    1 + word_length(signature, code)
}

// The length of a word: a symbol's name, or else one byte.
fn word_length(signature: Signature, code: u8) -> usize
    requires { ShortNames signature }
    ensures length { (text : List ℕ) → WritableWord text signature code → result ≡ length (word_text (signature_in text signature) (code_word code)) }
    ensures short { result ≤ max_name }
{
    let place = code as usize;
    if place < signature.count {
        return signature.symbols[place].length;
    }
    1
}

// A clause's line.
pub fn put_clause_line(
    out: &mut [u8],
    at: usize,
    text: &[u8],
    signature: Signature,
    words: ClauseWords,
) -> usize
    requires { Writable text.now signature words × (at + length (clause_line (signature_in text.now signature) (words_in words)) ≤ length out.old) }
    ensures written { out.new ≡ put out.old at (clause_line (signature_in text.now signature) (words_in words)) }
    ensures place { result ≡ at + length (clause_line (signature_in text.now signature) (words_in words)) }
{
    let mut e = put_bytes(out, at, b"clause=");
    for i in 0..words.count {
        e = put_next_word(out, e, text, signature, words.words[i], i);
    }
    out[e] = b'\n';
    e + 1
}

// A word after i others.
fn put_next_word(
    out: &mut [u8],
    at: usize,
    text: &[u8],
    signature: Signature,
    code: u8,
    i: usize,
) -> usize
    requires { WritableWord text.now signature code × (at + length (spaced i (word_text (signature_in text.now signature) (code_word code))) ≤ length out.old) }
    ensures written { out.new ≡ put out.old at (spaced i (word_text (signature_in text.now signature) (code_word code))) }
    ensures place { result ≡ at + length (spaced i (word_text (signature_in text.now signature) (code_word code))) }
{
    if i == 0 {
        return put_word(out, at, text, signature, code);
    }
    out[at] = b' ';
    put_word(out, at + 1, text, signature, code)
}

// A word: a symbol's name as it stands in the text, or else the word's byte, which its code has behind the places.
fn put_word(out: &mut [u8], at: usize, text: &[u8], signature: Signature, code: u8) -> usize
    requires { WritableWord text.now signature code × (at + length (word_text (signature_in text.now signature) (code_word code)) ≤ length out.old) }
    ensures written { out.new ≡ put out.old at (word_text (signature_in text.now signature) (code_word code)) }
    ensures place { result ≡ at + length (word_text (signature_in text.now signature) (code_word code)) }
{
    let place = code as usize;
    if place < signature.count {
        return put_name(out, at, text, signature.symbols[place]);
    }
    out[at] = code - ClauseWords::MAX_PLACES;
    at + 1
}
