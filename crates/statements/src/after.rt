// What is due after one more token. No list of the open terms is kept: all parentheses inside a literal enclose arguments.
ghost use Rattle.std.specs.Prelude.{◌≡◌, cond, [], ◌∷◌, ◌++◌, ◌<◌};
ghost use Rattle.tptp.specs.Grammar.{closing, stop, after_literal, relations, after_term, after_variable, begins_term, begins_literal, moves, due_after_token};
ghost use Rattle.tptp.specs.Grammar as grammar;
ghost use Rattle.tokens.specs.Pieces.{kind_in};
ghost use Rattle.statements.specs.Dues.{max_open, side_in, due_token_in, after_in, kind_token, moved_by, open_lists, only_move, outer_place};

use crate::due::{Due, Side, TermPlace};
use crate::kinds::is;
use tokens::pieces::Kind;

// One kind of token may come, and then this is due.
fn only(kind: Kind, want: Kind, next: Due) -> Option<Due>
    ensures { after_in result ≡ moved_by (only_move (kind_in want) (due_token_in next)) (kind_in kind) }
{
    is(want, kind).then_some(next)
}

#[tactic(auto, unfolding(tptp::specs::Grammar::due_after_token))]
fn after_statement(kind: Kind, cnf: bool) -> Option<Due>
    ensures { after_in result ≡ due_after_token grammar.statement (kind_token (kind_in kind) cnf) }
{
    match kind {
        Kind::LowerWord if cnf => Some(Due::Opening),
        _ => None,
    }
}

fn after_opening(kind: Kind) -> Option<Due>
    ensures { after_in result ≡ moved_by (moves grammar.name) (kind_in kind) }
{
    match kind {
        Kind::LowerWord | Kind::Digits => Some(Due::NameComma),
        _ => None,
    }
}

fn begins_literal(wrapped: bool, kind: Kind) -> Option<Due>
    ensures { after_in result ≡ moved_by (begins_literal wrapped) (kind_in kind) }
{
    match kind {
        Kind::Falsum => Some(Due::LiteralEnd(wrapped)),
        Kind::Tilde => Some(Due::Term(TermPlace::outer(wrapped, Side::First(true)))),
        _ => TermPlace::outer(wrapped, Side::First(false)).begun(kind),
    }
}

fn begins_clause(kind: Kind) -> Option<Due>
    ensures { after_in result ≡ moved_by (moves grammar.clause) (kind_in kind) }
{
    match kind {
        Kind::LeftParen => Some(Due::Literal(true)),
        _ => begins_literal(false, kind),
    }
}

// What is due after the clause: its parenthesis is closed first.
fn after_clause(wrapped: bool) -> Due
    ensures { due_token_in result ≡ cond wrapped closing stop }
{
    if wrapped { Due::Closing } else { Due::Stop }
}

fn after_literal(wrapped: bool, kind: Kind) -> Option<Due>
    ensures { after_in result ≡ moved_by (after_literal wrapped) (kind_in kind) }
{
    match kind {
        Kind::Bar => Some(Due::Literal(wrapped)),
        Kind::RightParen => Some(after_clause(wrapped)),
        _ => None,
    }
}

// = or != after a literal's first term: != not after ~.
fn relates(wrapped: bool, tilde: bool, kind: Kind) -> Option<Due>
    ensures { after_in result ≡ moved_by (relations wrapped tilde) (kind_in kind) }
{
    let second = Due::Term(TermPlace::outer(wrapped, Side::Second));
    match kind {
        Kind::EqualSign => Some(second),
        Kind::UnequalSign if !tilde => Some(second),
        _ => None,
    }
}

// After a literal's first term: = or !=, or what follows a literal.
fn after_first_term(wrapped: bool, tilde: bool, kind: Kind) -> Option<Due>
    ensures { after_in result ≡ moved_by (relations wrapped tilde ++ after_literal wrapped) (kind_in kind) }
{
    relates(wrapped, tilde, kind).or(after_literal(wrapped, kind))
}

impl TermPlace {
    // Outside argument lists.
    fn outer(wrapped: bool, side: Side) -> TermPlace
        ensures { result ≡ outer_place wrapped side }
    {
        TermPlace {
            wrapped,
            side,
            lists: 0,
        }
    }

    // After the term's first token.
    fn begun(self, kind: Kind) -> Option<Due>
        ensures { after_in result ≡ moved_by (begins_term self.wrapped (side_in self.side) self.lists) (kind_in kind) }
    {
        match kind {
            Kind::LowerWord => Some(Due::WordEnd(self)),
            Kind::UpperWord => Some(self.after_variable()),
            _ => None,
        }
    }

    // What is due after a variable: it is no atom.
    fn after_variable(self) -> Due
        ensures { due_token_in result ≡ after_variable self.wrapped (side_in self.side) self.lists }
    {
        match self.side {
            Side::First(tilde) if self.lists == 0 => Due::Equality(self.wrapped, tilde),
            _ => Due::TermEnd(self),
        }
    }

    // After a lower word: its arguments, or what follows the term.
    fn after_word(self, kind: Kind) -> Option<Due>
        requires { self.lists < max_open }
        ensures { after_in result ≡ moved_by (moves (grammar.word_end self.wrapped (side_in self.side) self.lists)) (kind_in kind) }
    {
        match kind {
            Kind::LeftParen => Some(Due::Term(TermPlace {
                lists: self.lists + 1,
                ..self
            })),
            _ => self.after_term(kind),
        }
    }

    fn after_term(self, kind: Kind) -> Option<Due>
        ensures { after_in result ≡ moved_by (after_term self.wrapped (side_in self.side) self.lists) (kind_in kind) }
    {
        if self.lists == 0 {
            return self.after_outer_term(kind);
        }
        match kind {
            Kind::Comma => Some(Due::Term(self)),
            Kind::RightParen => Some(Due::TermEnd(TermPlace {
                lists: self.lists - 1,
                ..self
            })),
            _ => None,
        }
    }

    // After a term outside lists.
    fn after_outer_term(self, kind: Kind) -> Option<Due>
        ensures { after_in result ≡ moved_by (after_term self.wrapped (side_in self.side) 0) (kind_in kind) }
    {
        match self.side {
            Side::Second => after_literal(self.wrapped, kind),
            Side::First(tilde) => after_first_term(self.wrapped, tilde, kind),
        }
    }
}

// What is due after a token of this kind, where `due` is due; cnf tells whether it spells cnf.
#[tactic(auto, unfolding(tptp::specs::Grammar::due_after_token))]
pub fn after(due: Due, kind: Kind, cnf: bool) -> Option<Due>
    requires { open_lists (due_token_in due) < max_open }
    ensures { after_in result ≡ due_after_token (due_token_in due) (kind_token (kind_in kind) cnf) }
{
    match due {
        Due::Statement => after_statement(kind, cnf),
        Due::Opening => only(kind, Kind::LeftParen, Due::Name),
        Due::Name => after_opening(kind),
        Due::NameComma => only(kind, Kind::Comma, Due::Role),
        Due::Role => only(kind, Kind::LowerWord, Due::RoleComma),
        Due::RoleComma => only(kind, Kind::Comma, Due::Clause),
        Due::Clause => begins_clause(kind),
        Due::Literal(wrapped) => begins_literal(wrapped, kind),
        Due::LiteralEnd(wrapped) => after_literal(wrapped, kind),
        Due::Term(place) => place.begun(kind),
        Due::WordEnd(place) => place.after_word(kind),
        Due::TermEnd(place) => place.after_term(kind),
        Due::Equality(wrapped, tilde) => relates(wrapped, tilde, kind),
        Due::Closing => only(kind, Kind::RightParen, Due::Stop),
        Due::Stop => only(kind, Kind::FullStop, Due::Statement),
    }
}
