// The next token of a text from a place on, past blanks and comments.
ghost use Rattle.std.specs.Prelude.{◌≤◌, length};
ghost use Rattle.tokens.specs.NextTokens.{NextFound};

use crate::pieces::{Kind, Piece, piece_at};

// A token: its kind, its place and the place after it.
#[derive(Clone, Copy)]
pub struct Token {
    pub kind: Kind,
    pub start: usize,
    pub end: usize,
}

// The next token, or none where the text has ended.
pub fn next_token(text: &[u8], at: usize) -> Option<Token>
    requires { at ≤ length text.now }
    ensures { NextFound text.now at result }
{
    let mut i = at;
    while i < text.len() {
        match piece_at(text, i) {
            Piece::Gap(n) => {
                i += n;
            }
            Piece::Token(kind, n) => {
                return Some(Token {
                    kind,
                    start: i,
                    end: i + n,
                });
            }
            Piece::Unclosed => {
                return Some(Token {
                    kind: Kind::OpenComment,
                    start: text.len(),
                    end: text.len(),
                });
            }
        }
    }
    None
}
