// How many arguments follow a symbol, from the lists that are noted; when they are used up, the next ones are noted.
ghost use Rattle.std.specs.Prelude.{◌≡◌, cond, ◌≤◌, ◌<◌, length};
ghost use Rattle.tptp.specs.Scanning.{arity_ahead};
ghost use Rattle.scanning.specs.Ahead.{items_at};
ghost use Rattle.argument_lists.specs.Lists.{Room, Held, from_open, KeepsSlices};
ghost use Rattle.argument_lists.specs.Told.{none_told, told_after, ToldAt, ArityTold};

use crate::noting::note_lists;
use crate::pass::{Lists, MANY};
use scanning::ahead::arity_ahead;
use statements::kinds::is;
use std::ops::Range;
use tokens::next::next_token;
use tokens::pieces::Kind;

// The counts at these places are those of the lists that open next.
pub type ToldPlaces = Range<usize>;

// The arguments of a symbol, and what is told then.
#[derive(Drop)]
pub struct Arity {
    pub count: usize,
    pub told: ToldPlaces,
}

// Nothing is told.
pub fn nothing_told() -> ToldPlaces
    ensures { result ≡ none_told }
{
    0..0
}

// What is told behind a token, which opens a list or not.
pub fn told_after(told: ToldPlaces, opens: bool) -> ToldPlaces
    ensures { result ≡ told_after told opens }
{
    if opens && !told.is_empty() {
        return told.start + 1..told.end;
    }
    told
}

// What is told of the list that is open at a place and of those that open from there on: not nothing.
fn refreshed(text: &[u8], at: usize, lists: &mut Lists, told: ToldPlaces) -> ToldPlaces
    requires { (at ≤ length text.now) × (Room lists.old.counts.now lists.old.links.now × Held lists.old.counts.now told.start told.end (from_open (items_at text.now at))) }
    ensures some { result.start < result.end }
    ensures held { Held lists.new.counts.now result.start result.end (from_open (items_at text.now at)) }
    ensures same_slices { KeepsSlices lists.old lists.new }
{
    if !told.is_empty() {
        return told;
    }
    0..note_lists(text, at, lists)
}

// How many arguments follow a symbol that ends at a place.
pub fn arity_at(text: &[u8], at: usize, lists: &mut Lists, told: ToldPlaces) -> Arity
    requires { (at ≤ length text.now) × (Room lists.old.counts.now lists.old.links.now × ToldAt text.now at lists.old.counts.now told) }
    ensures told { ArityTold text.now at lists.new.counts.now result }
    ensures same_slices { KeepsSlices lists.old lists.new }
{
    match next_token(text, at) {
        Some(token) if is(Kind::LeftParen, token.kind) => {
            let told = refreshed(text, token.end, lists, told);
            let n = lists.counts[told.start];
            let count = if n < MANY {
                usize::from(n)
            } else {
                arity_ahead(text, at)
            };
            Arity { count, told }
        }
        _ => Arity { count: 0, told },
    }
}
