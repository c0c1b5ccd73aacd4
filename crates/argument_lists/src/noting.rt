// The lists from a place on noted in one pass: up to the end of the last noted list, or to the statement's full stop.
ghost use Rattle.std.specs.Prelude.{◌≡◌, true, ◌≤◌, length};
ghost use Rattle.scanning.specs.Ahead.{items_at};
ghost use Rattle.argument_lists.specs.Lists.{Room, Held, from_open, KeepsSlices};

use crate::pass::{LISTS, Lists, Pass};
use statements::kinds::is;
use tokens::next::next_token;
use tokens::pieces::Kind;

// Whether the pass may end after a token of this kind: all that it noted is closed, and no list is to be noted any more.
fn is_over(kind: Kind, p: Pass) -> bool
    ensures { result ≡ true → p.innermost ≡ None }
{
    p.innermost.is_none() && (p.count == LISTS || is(Kind::FullStop, kind))
}

// Notes the list that is open at a place and those that open from there on; answers how many are noted.
pub fn note_lists(text: &[u8], at: usize, lists: &mut Lists) -> usize
    requires { (at ≤ length text.now) × Room lists.old.counts.now lists.old.links.now }
    ensures some { 1 ≤ result }
    ensures held { Held lists.new.counts.now 0 result (from_open (items_at text.now at)) }
    ensures same_slices { KeepsSlices lists.old lists.new }
{
    let none = Pass {
        count: 0,
        innermost: None,
        beyond: 0,
    };
    let mut p = lists.opened(none);
    let mut i = at;
    while let Some(token) = next_token(text, i) {
        p = lists.after_token(token.kind, p);
        if is_over(token.kind, p) {
            return p.count;
        }
        i = token.end;
    }
    p.count
}
