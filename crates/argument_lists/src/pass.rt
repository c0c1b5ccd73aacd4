// One token more of a pass over the lists of arguments: the lists noted so far, each with its arguments up to here, and those among them that are still open.
ghost use Rattle.std.specs.Prelude.{◌≡◌, true, List, ◌∷◌, ℕ, ◌≤◌, ◌<◌, ◌+◌};
ghost use Rattle.tptp.specs.Tokens.{TokenKind, left_paren, right_paren, comma};
ghost use Rattle.tptp.specs.Trees.{Name};
ghost use Rattle.tptp.specs.Written.{Item, item_of};
ghost use Rattle.tptp.specs.Scanning.{same_token_kind};
ghost use Rattle.tokens.specs.Pieces.{kind_in};
ghost use Rattle.statements.specs.Dues.{max_open};
ghost use Rattle.argument_lists.specs.Lists.{max_lists, KeepsSlices};
ghost use Rattle.argument_lists.specs.Passing.{link_to, Telling, Tellable};

use tokens::pieces::Kind;

// How many lists are noted in one pass.
pub const LISTS: usize = 16_384;

// So many arguments are too many for any symbol: of more it is not counted how many.
pub const MANY: u8 = 4;

// The lists that are noted, by place in two slices that are lent: the arguments of each up to here, and the list around it by the number that links to it.
#[derive(Drop)]
pub struct Lists<'a> {
    pub counts: &'a mut [u8],
    pub links: &'a mut [u16],
}

// How many lists are noted; which of them is the innermost that is open; and how many lists that are not noted are open inside it.
#[derive(Clone, Copy)]
pub struct Pass {
    pub count: usize,
    pub innermost: Option<usize>,
    pub beyond: usize,
}

// By what number a list is linked to: one more than its place, or 0 where there is none.
fn link_to(list: Option<usize>) -> u16
    requires { link_to list ≤ max_lists }
    ensures { result ≡ link_to list }
{
    list.map_or(0, |k| k as u16 + 1)
}

// The list that is linked to by a number.
fn linked(link: u16) -> Option<usize>
    ensures { link_to result ≡ link }
{
    usize::from(link).checked_sub(1)
}

impl Lists<'_> {
    // ( opens a list, which has one argument so far. It is noted while there is room.
    pub fn opened(&mut self, p: Pass) -> Pass
        requires { Tellable self.old.counts.now self.old.links.now p × (p.beyond < max_open) }
        ensures tells { (ns : List ℕ) (k : TokenKind) (w : Name) (us : List Item) → same_token_kind left_paren k ≡ true → Telling ns (item_of k w ∷ us) self.old.counts.now self.old.links.now p → Telling ns us self.new.counts.now self.new.links.now result }
        ensures more { (p.count ≤ result.count) × ((result.beyond ≤ p.beyond + 1) × (p.count < max_lists → result.count ≡ p.count + 1)) }
        ensures same_slices { KeepsSlices self.old self.new }
    {
        let n = p.count;
        if LISTS <= n {
            return Pass {
                beyond: p.beyond + 1,
                ..p
            };
        }
        self.counts[n] = 1;
        self.links[n] = link_to(p.innermost);
        Pass {
            count: n + 1,
            innermost: Some(n),
            beyond: 0,
        }
    }

    // ) closes the innermost list that is open, unless that opened before the pass.
    fn closed(&self, p: Pass) -> Pass
        requires { Tellable self.now.counts.now self.now.links.now p }
        ensures tells { (ns : List ℕ) (k : TokenKind) (w : Name) (us : List Item) → same_token_kind right_paren k ≡ true → Telling ns (item_of k w ∷ us) self.now.counts.now self.now.links.now p → Telling ns us self.now.counts.now self.now.links.now result }
        ensures more { (p.count ≤ result.count) × (result.beyond ≤ p.beyond) }
    {
        if p.beyond != 0 {
            return Pass {
                beyond: p.beyond - 1,
                ..p
            };
        }
        let Some(k) = p.innermost else {
            return p;
        };
        Pass {
            innermost: linked(self.links[k]),
            ..p
        }
    }

    // A comma: the innermost list that is open has one argument more.
    fn next_argument(&mut self, p: Pass)
        requires { Tellable self.old.counts.now self.old.links.now p }
        ensures tells { (ns : List ℕ) (k : TokenKind) (w : Name) (us : List Item) → same_token_kind comma k ≡ true → Telling ns (item_of k w ∷ us) self.old.counts.now self.old.links.now p → Telling ns us self.new.counts.now self.new.links.now p }
        ensures same_slices { KeepsSlices self.old self.new }
    {
        if p.beyond != 0 {
            return;
        }
        let Some(k) = p.innermost else {
            return;
        };
        if self.counts[k] < MANY {
            self.counts[k] += 1;
        }
    }

    // A token of any kind.
    pub fn after_token(&mut self, kind: Kind, p: Pass) -> Pass
        requires { Tellable self.old.counts.now self.old.links.now p × (p.beyond < max_open) }
        ensures tells { (ns : List ℕ) (w : Name) (us : List Item) → Telling ns (item_of (kind_in kind) w ∷ us) self.old.counts.now self.old.links.now p → Telling ns us self.new.counts.now self.new.links.now result }
        ensures more { (p.count ≤ result.count) × (result.beyond ≤ p.beyond + 1) }
        ensures same_slices { KeepsSlices self.old self.new }
    {
        match kind {
            Kind::LeftParen => self.opened(p),
            Kind::RightParen => self.closed(p),
            Kind::Comma => {
                self.next_argument(p);
                p
            }
            _ => p,
        }
    }
}
