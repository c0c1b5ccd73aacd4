// Looking ahead from a word: its arguments, and what stands between it and a second term. The lists open on the way are counted, not kept.
ghost use Rattle.std.specs.Prelude.{◌≡◌, ◌≤◌, length};
ghost use Rattle.tptp.specs.Scanning.{commas, arity_ahead, relation_of, relation_ahead};
ghost use Rattle.tokens.specs.Pieces.{kind_in};
ghost use Rattle.scanning.specs.Ahead.{items_at, relation_in};

use statements::kinds::is;
use tokens::next::next_token;
use tokens::pieces::Kind;

// The relation that a token is: = (true) or != (false).
fn relation_of(kind: Kind) -> Option<bool>
    ensures { relation_in result ≡ relation_of (kind_in kind) }
{
    match kind {
        Kind::EqualSign => Some(true),
        Kind::UnequalSign => Some(false),
        _ => None,
    }
}

// The relation that follows from a place on, when the lists that open there have ended; none where the literal has no second term.
pub fn relation_ahead(text: &[u8], at: usize) -> Option<bool>
    requires { at ≤ length text.now }
    ensures { relation_in result ≡ relation_ahead (items_at text.now at) 0 }
{
    let mut i = at;
    let mut lists: usize = 0;
    while let Some(token) = next_token(text, i) {
        match token.kind {
            Kind::LeftParen => lists += 1,
            kind if lists == 0 => return relation_of(kind),
            Kind::RightParen => lists -= 1,
            _ => {}
        }
        i = token.end;
    }
    None
}

// The commas of the list that is open at a place, up to its end.
fn commas_ahead(text: &[u8], at: usize) -> usize
    requires { at ≤ length text.now }
    ensures count { result ≡ commas (items_at text.now at) 0 }
    ensures few { result ≤ length text.now }
{
    let mut i = at;
    let mut lists: usize = 0;
    let mut count: usize = 0;
    while let Some(token) = next_token(text, i) {
        match token.kind {
            Kind::LeftParen => lists += 1,
            Kind::RightParen if lists == 0 => return count,
            Kind::RightParen => lists -= 1,
            Kind::Comma if lists == 0 => count += 1,
            _ => {}
        }
        i = token.end;
    }
    count
}

// How many arguments follow a word that ends at a place.
pub fn arity_ahead(text: &[u8], at: usize) -> usize
    requires { at ≤ length text.now }
    ensures { result ≡ arity_ahead (items_at text.now at) }
{
    match next_token(text, at) {
        Some(token) if is(Kind::LeftParen, token.kind) => 1 + commas_ahead(text, token.end),
        _ => 0,
    }
}
