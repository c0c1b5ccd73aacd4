// The piece of a text that begins at a place: a blank, a comment or a token, with its length.
ghost use Rattle.std.specs.Prelude.{◌≡◌, cond, ◌&&◌, ◌||◌, suc, ◌≤◌, ◌<◌, eqb, length, get_or, drop};
ghost use Rattle.tptp.specs.Tokens as tokens;
ghost use Rattle.tokens.specs.Pieces.{piece_in, number_piece_of, dollar_piece_of};

use crate::classes::{is_blank, is_upper};
use crate::comments::comment_rest;
use crate::numbers::number_rest;
use crate::runs::{byte_is, digit_run, line_run, word_run};
use text::classes::is_lower;
use text::numbers::is_digit;

// What a token is; Foreign: a token of TPTP that this part of it lacks, or a byte that begins no token.
#[derive(Clone, Copy, PartialEq, Eq)]
pub enum Kind {
    LowerWord,
    UpperWord,
    Digits,
    Falsum,
    LeftParen,
    RightParen,
    Comma,
    FullStop,
    Bar,
    Tilde,
    EqualSign,
    UnequalSign,
    Foreign,
    OpenComment,
}

// Blanks or a comment of so many bytes, a token of so many bytes, or a comment that does not end.
#[derive(Drop)]
pub enum Piece {
    Gap(usize),
    Token(Kind, usize),
    Unclosed,
}

// The piece that begins with ~, before this place.
fn tilde_piece(text: &[u8], at: usize) -> Piece
    ensures { piece_in result ≡ cond (tokens.starts_with (λ c. eqb c 124 || eqb c 38) (drop at text.now)) (tokens.token tokens.foreign 2) (tokens.token tokens.tilde 1) }
{
    match text.get(at) {
        Some(b'|' | b'&') => Piece::Token(Kind::Foreign, 2),
        _ => Piece::Token(Kind::Tilde, 1),
    }
}

// The piece that begins with =, before this place.
fn equal_piece(text: &[u8], at: usize) -> Piece
    ensures { piece_in result ≡ cond (tokens.starts_with (eqb 62) (drop at text.now)) (tokens.token tokens.foreign 2) (tokens.token tokens.equal_sign 1) }
{
    match text.get(at) {
        Some(b'>') => Piece::Token(Kind::Foreign, 2),
        _ => Piece::Token(Kind::EqualSign, 1),
    }
}

// The piece that begins with !, before this place.
fn bang_piece(text: &[u8], at: usize) -> Piece
    ensures { piece_in result ≡ cond (tokens.starts_with (eqb 61) (drop at text.now)) (tokens.token tokens.unequal_sign 2) (tokens.token tokens.foreign 1) }
{
    match text.get(at) {
        Some(b'=') => Piece::Token(Kind::UnequalSign, 2),
        _ => Piece::Token(Kind::Foreign, 1),
    }
}

// The piece that begins with a byte of punctuation, before this place, or with a byte that begins no token.
fn sign_piece(text: &[u8], at: usize, b: u8) -> Piece
    ensures { piece_in result ≡ tokens.sign_piece b (drop at text.now) }
{
    match b {
        b'(' => Piece::Token(Kind::LeftParen, 1),
        b')' => Piece::Token(Kind::RightParen, 1),
        b',' => Piece::Token(Kind::Comma, 1),
        b'.' => Piece::Token(Kind::FullStop, 1),
        b'|' => Piece::Token(Kind::Bar, 1),
        b'~' => tilde_piece(text, at),
        b'=' => equal_piece(text, at),
        b'!' => bang_piece(text, at),
        _ => Piece::Token(Kind::Foreign, 1),
    }
}

// The piece that begins with $, before this place.
fn dollar_piece(text: &[u8], at: usize) -> Piece
    requires { at ≤ length text.now }
    ensures { piece_in result ≡ dollar_piece_of (drop at text.now) }
{
    let n = word_run(text, at);
    let end = at + n;
    if &text[at..end] == b"false".as_slice() {
        return Piece::Token(Kind::Falsum, 6);
    }
    Piece::Token(Kind::Foreign, n + 1)
}

// The piece that begins with a digit, before this place.
fn number_piece(text: &[u8], at: usize) -> Piece
    requires { at ≤ length text.now }
    ensures { piece_in result ≡ number_piece_of (drop at text.now) }
{
    let n = digit_run(text, at);
    let rest = number_rest(text, at + n);
    if rest == 0 {
        return Piece::Token(Kind::Digits, n + 1);
    }
    Piece::Token(Kind::Foreign, n + 1 + rest)
}

// The piece that begins with /*, before this place.
fn comment_piece(text: &[u8], at: usize) -> Piece
    requires { at ≤ length text.now }
    ensures { piece_in result ≡ tokens.comment_piece (tokens.to_comment_end (drop at text.now)) }
{
    match comment_rest(text, at) {
        Some(n) => Piece::Gap(n + 2),
        None => Piece::Unclosed,
    }
}

// Whether /* stands at a place.
fn opens_comment(text: &[u8], at: usize) -> bool
    requires { at < length text.now }
    ensures { result ≡ (eqb (get_or text.now at 0) 47 && tokens.starts_with (eqb 42) (drop (suc at) text.now)) }
{
    text[at] == b'/' && byte_is(text, at + 1, b'*')
}

// The piece that begins at a place.
pub fn piece_at(text: &[u8], at: usize) -> Piece
    requires { at < length text.now }
    ensures { piece_in result ≡ tokens.piece_of (get_or text.now at 0) (drop (suc at) text.now) }
{
    let b = text[at];
    if is_blank(b) {
        return Piece::Gap(1);
    }
    if b == b'%' {
        return Piece::Gap(1 + line_run(text, at + 1));
    }
    if opens_comment(text, at) {
        return comment_piece(text, at + 2);
    }
    if is_lower(b) {
        return Piece::Token(Kind::LowerWord, 1 + word_run(text, at + 1));
    }
    if is_upper(b) {
        return Piece::Token(Kind::UpperWord, 1 + word_run(text, at + 1));
    }
    if is_digit(b) {
        return number_piece(text, at + 1);
    }
    if b == b'$' {
        return dollar_piece(text, at + 1);
    }
    sign_piece(text, at + 1, b)
}
