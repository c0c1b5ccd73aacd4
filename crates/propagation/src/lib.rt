// Unit propagation to the end, over clauses that are held in lent numbers (specs/WorkArea.antt says how).
#![tactic(auto)]

ghost use Rattle.std.specs.Prelude.{◌≡◌, ◌<◌};
ghost use Rattle.propagation.specs.Units.{visit_of};
ghost use Rattle.propagation.specs.Advance.{advanced, Ready, PropagatesFrom};

use literals::negated;
use units::Clash;
use weights::Weight;

pub mod literals; // literals.rt: literals as numbers
pub mod weights; // weights.rt: lowering and raising the weights of clauses
pub mod units; // units.rt: clauses with one literal left

// How many entries of the trail are false in their clauses, and the trail's length.
#[derive(Clone, Copy)]
pub struct Front {
    pub head: usize,
    pub len: usize,
}

// Makes the literal against the trail's entry at head false in its clauses, and looks at these.
// Lowering the whole block before looking at it costs little, and gives each loop an exact contract.
pub fn advance(work: &mut [u32], v: usize, head: usize, len: usize) -> Result<usize, Clash>
    requires ready { Ready v head len work.old }
    requires head_lt_len { head < len }
    ensures { visit_of result work.new ≡ advanced v head len work.old }
{
    let literal = negated(work[v + head] / 2);
    let at = 2 * v + 2 * literal as usize;
    let from = work[at] as usize;
    let to = work[at + 1] as usize;
    weights::lower(work, from, to, Weight::BASE * literal + 1);
    units::scan(work, v, from, to, len)
}

// Propagates on from the front, until a clause is wholly false or nothing is forced. Answers the trail's length
// where nothing is: all its entries are then false in their clauses.
pub fn propagate(work: &mut [u32], v: usize, front: Front) -> Result<usize, Front>
    requires { Ready v front.head front.len work.old }
    ensures { PropagatesFrom v front.head front.len work.old result work.new }
{
    let mut head = front.head;
    let mut entries = front.len;
    while head < entries {
        let seen = advance(work, v, head, entries);
        head += 1;
        match seen {
            Ok(len) => entries = len,
            Err(Clash(len)) => return Err(Front { head, len }),
        }
    }
    Ok(entries)
}
