// What a token adds to the words of a clause: nothing, a variable or symbol, and at a literal's begin its sign and = in front.
ghost use Rattle.std.specs.Prelude.{◌≡◌, false, cond, not, ◌||◌, ◌≤◌, length};
ghost use Rattle.tptp.specs.Tokens.{lower_word, upper_word};
ghost use Rattle.tptp.specs.Trees.{Name};
ghost use Rattle.tptp.specs.Written.{item_of};
ghost use Rattle.tptp.specs.Scanning.{same_token_kind, arity_ahead, entries_at};
ghost use Rattle.tptp.specs.Scanning as scanning;
ghost use Rattle.tokens.specs.Pieces.{kind_in};
ghost use Rattle.statements.specs.declared.due.Due.TheVariants.{Term};
ghost use Rattle.statements.specs.Dues.{due_token_in};
ghost use Rattle.scanning.specs.Ahead.{items_at};
ghost use Rattle.scanning.specs.Entries.{spot_in, word_named, atom_entries, entries_in, unmarked};

use crate::ahead::relation_ahead;
use statements::due::{Due, Side, TermPlace};
use tokens::pieces::Kind;

// Where a token stands: as an atom or a literal's first term, ~ standing before it or not; as another term; or in no clause.
#[derive(Drop)]
pub enum Spot {
    AtomStart(bool),
    InTerm,
    Elsewhere,
}

// What is put in front of a literal: its sign, and = where it is an equality.
#[derive(Drop)]
pub enum Marks {
    None,
    Sign(bool),
    Equality(bool),
}

// What a token names: nothing; a variable; or a symbol, a function or not. How many arguments a symbol has is not looked for here.
#[derive(Clone, Copy)]
pub enum Named {
    Nothing,
    Variable,
    Symbol(bool),
}

#[derive(Drop)]
pub struct Entries {
    pub marks: Marks,
    pub named: Named,
}

// Where a term's token stands.
fn term_spot(place: TermPlace) -> Spot
    ensures { spot_in result ≡ scanning.spot (due_token_in (Term place)) }
{
    match place.side {
        Side::First(tilde) if place.lists == 0 => Spot::AtomStart(tilde),
        _ => Spot::InTerm,
    }
}

// Where a token stands, if this is due.
fn spot_of(due: Due) -> Spot
    ensures { spot_in result ≡ scanning.spot (due_token_in due) }
{
    match due {
        Due::Clause | Due::Literal(_) => Spot::AtomStart(false),
        Due::Term(place) => term_spot(place),
        _ => Spot::Elsewhere,
    }
}

// The word that a token is: a variable or a symbol.
fn named_word(kind: Kind, function: bool) -> Named
    ensures { result ≡ word_named (kind_in kind) function }
{
    match kind {
        Kind::UpperWord => Named::Variable,
        _ => Named::Symbol(function),
    }
}

// A literal's sign: != stands for - and =.
fn sign(tilde: bool, equal: bool) -> bool
    ensures { result ≡ cond equal (not tilde) false }
{
    equal && !tilde
}

// A literal's first word, with its sign and = in front.
fn atom_entries(text: &[u8], tilde: bool, kind: Kind, end: usize) -> Entries
    requires { end ≤ length text.now }
    ensures { result ≡ atom_entries tilde (kind_in kind) (items_at text.now end) }
{
    match relation_ahead(text, end) {
        None => Entries {
            marks: Marks::Sign(!tilde),
            named: named_word(kind, false),
        },
        Some(equal) => Entries {
            marks: Marks::Equality(sign(tilde, equal)),
            named: named_word(kind, true),
        },
    }
}

// What is named, with nothing in front.
fn unmarked(named: Named) -> Entries
    ensures { result ≡ unmarked named }
{
    Entries {
        marks: Marks::None,
        named,
    }
}

// Whether the token is a word.
fn is_word(kind: Kind) -> bool
    ensures { result ≡ (same_token_kind lower_word (kind_in kind) || same_token_kind upper_word (kind_in kind)) }
{
    matches!(kind, Kind::LowerWord | Kind::UpperWord)
}

// What a token that ends at a place adds, if this is due.
pub fn entries_at(text: &[u8], due: Due, kind: Kind, end: usize) -> Entries
    requires { end ≤ length text.now }
    ensures { (n : Name) → entries_in n (arity_ahead (items_at text.now end)) result ≡ entries_at (scanning.spot (due_token_in due)) (item_of (kind_in kind) n) (items_at text.now end) }
{
    if !is_word(kind) {
        return unmarked(Named::Nothing);
    }
    match spot_of(due) {
        Spot::Elsewhere => unmarked(Named::Nothing),
        Spot::InTerm => unmarked(named_word(kind, true)),
        Spot::AtomStart(tilde) => atom_entries(text, tilde, kind, end),
    }
}
