// A statement followed from its cnf to its full stop.
ghost use Rattle.std.specs.Prelude.{◌≡◌, false, ◌≤◌, length};
ghost use Rattle.tptp.specs.Grammar.{opening, is_cnf, may_end};
ghost use Rattle.tokens.specs.NextTokens.{token_in};
ghost use Rattle.statements.specs.Dues.{open_lists, due_token_in};
ghost use Rattle.statements.specs.Follows.{Stepped, RestTo, FollowedTo};

use crate::after::after;
use crate::due::Due;
use crate::kinds::{is, spells_cnf};
use tokens::next::{Token, next_token};
use tokens::pieces::Kind;

// A whole statement: the places of its cnf and of its full stop, and the place after it; the text's end instead of a statement;
// or the place of a token that cannot stand there, or of the text's end where it may not end.
#[derive(Drop)]
pub enum Followed {
    Whole(usize, usize, usize),
    End,
    Foreign(usize),
}

// One token inside a statement: what is due after it, and the place after it; or it is the full stop, with its place and the place after it;
// or a place as above.
#[derive(Drop)]
pub enum Step {
    On { next: Due, end: usize },
    Stop { at: usize, end: usize },
    Foreign(usize),
}

// One more token, where this is due inside a statement.
fn one_more(text: &[u8], at: usize, due: Due) -> Step
    requires { (at ≤ length text.now) × ((open_lists (due_token_in due) ≤ at) × (may_end (due_token_in due) ≡ false)) }
    ensures { Stepped text.now at (due_token_in due) result }
{
    let Some(Token { kind, start, end }) = next_token(text, at) else {
        return Step::Foreign(text.len());
    };
    match after(due, kind, false) {
        None => Step::Foreign(start),
        Some(_) if is(Kind::FullStop, kind) => Step::Stop { at: start, end },
        Some(next) => Step::On { next, end },
    }
}

// The tokens after a statement's cnf: the place of its full stop and the place after it, or a place as above.
fn follow_rest(text: &[u8], at: usize) -> Result<(usize, usize), usize>
    requires { at ≤ length text.now }
    ensures { RestTo text.now opening at result }
{
    let mut due = Due::Opening;
    let mut i = at;
    loop {
        match one_more(text, i, due) {
            Step::Foreign(place) => {
                return Err(place);
            }
            Step::Stop { at, end } => {
                return Ok((at, end));
            }
            Step::On { next, end } => {
                due = next;
                i = end;
            }
        }
    }
}

// Whether a token is the word cnf.
fn is_cnf(text: &[u8], token: Token) -> bool
    requires { (token.start ≤ token.end) × (token.end ≤ length text.now) }
    ensures { result ≡ is_cnf (token_in text.now token) }
{
    is(Kind::LowerWord, token.kind) && spells_cnf(text, token.start, token.end)
}

// The statement from a place on.
pub fn follow(text: &[u8], at: usize) -> Followed
    requires { at ≤ length text.now }
    ensures { FollowedTo text.now at result }
{
    let Some(token) = next_token(text, at) else {
        return Followed::End;
    };
    if !is_cnf(text, token) {
        return Followed::Foreign(token.start);
    }
    match follow_rest(text, token.end) {
        Ok((stop, past)) => Followed::Whole(token.start, stop, past),
        Err(place) => Followed::Foreign(place),
    }
}
