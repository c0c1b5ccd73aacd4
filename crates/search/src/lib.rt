// The search: unit propagation, a choice for the lowest unset variable, and back to the latest choice whose other value is untried.
#![tactic(auto)]

ghost use Rattle.std.specs.Prelude.{◌≡◌, ◌+◌, ◌<◌, ◌^◌, eqb, length};
ghost use Rattle.std.specs.List.{position};
ghost use Rattle.propagation.specs.WorkArea.{Regions};
ghost use Rattle.propagation.specs.Advance.{Ready};
ghost use Rattle.search.specs.Search.{lowest_unset, preferred, floated, Lowered, Pops, Returns, Startable, Searches, Loadable, Begins, Solves};

use indices::PropVar;
use propagation::literals::{literal, negated};
use propagation::units::Clash;
use propagation::weights::Weight;
use propagation::{Front, propagate, units, weights};

// How a search ends: a valuation was found or there is none, after so many choices, or it was stopped where one more choice was needed than allowed.
#[derive(Drop)]
pub enum Outcome {
    Found(u64),
    Exhausted(u64),
    Stopped,
}

// The lowest variable that has no value, where there is one.
pub fn unset(values: &[u32]) -> Option<PropVar>
    requires { length values.now < 2 ^ 32 }
    ensures { result ≡ lowest_unset values.now }
{
    let variable = first_zero(values)?;
    Some(PropVar(variable as u32))
}

// The place of the first number that is 0.
fn first_zero(values: &[u32]) -> Option<usize>
    ensures { result ≡ position (λ z. eqb z 0) values.now }
{
    values.iter().position(|value| *value == 0)
}

// The literal of the variable that is tried first.
pub fn first(work: &[u32], v: usize, variable: PropVar) -> u32
    requires regions { Regions v work.now }
    requires variable_lt_v { variable.0 < v }
    ensures { result ≡ preferred v variable.0 work.now }
{
    let x = variable.0 as usize;
    literal(variable, work[6 * v + x] == 1)
}

// Takes back that the trail's entry at the place was made false in its clauses.
pub fn recall(work: &mut [u32], v: usize, place: usize, len: usize)
    requires { Ready v (place + 1) len work.old }
    ensures { work.new ≡ floated v place work.old }
{
    let against = negated(work[v + place] / 2);
    let at = 2 * v + 2 * against as usize;
    let from = work[at] as usize;
    let to = work[at + 1] as usize;
    weights::raise(work, from, to, Weight::BASE * against + 1);
}

// Takes the newest of len entries off the trail, and answers how many of the rest are false in their clauses:
// after a clash the entries from head on are not.
pub fn pop(work: &mut [u32], v: usize, head: usize, len: usize) -> usize
    requires ready { Ready v head len work.old }
    requires len_nonzero { 0 < len }
    ensures lowered { Lowered head len result }
    ensures pops { Pops v head len work.old result work.new }
{
    let place = len - 1;
    let variable = (work[v + place] / 2 / 2) as usize;
    if place < head {
        recall(work, v, place, len);
        work[variable] = 0;
        return place;
    }
    work[variable] = 0;
    head
}

// Goes back to the latest choice whose other value is untried, and gives it that value; none is open where nothing is answered.
pub fn backtrack(work: &mut [u32], v: usize, front: Front) -> Option<Front>
    requires { Ready v front.head front.len work.old }
    ensures { Returns v front.head front.len work.old result work.new }
{
    let mut level = front.head;
    for place in (0..front.len).rev() {
        let top = work[v + place];
        level = pop(work, v, level, place + 1);
        if top % 2 == 1 {
            units::push(work, v, place, negated(top / 2), 0);
            return Some(Front {
                head: level,
                len: place + 1,
            });
        }
    }
    None
}

// Searches from a trail of len entries that has no choices, with so many choices allowed. What a choice is: a value put where nothing is forced.
pub fn search(work: &mut [u32], v: usize, len: usize, allowed: u64) -> Outcome
    requires { Startable v len work.old }
    ensures { Searches v len allowed work.old result work.new }
{
    let mut front = Front { head: 0, len };
    let mut choices = 0;
    loop {
        match propagate(work, v, front) {
            Err(clash) => {
                let Some(back) = backtrack(work, v, clash) else {
                    return Outcome::Exhausted(choices);
                };
                front = back;
            }
            Ok(entries) => {
                let Some(variable) = unset(&work[..v]) else {
                    return Outcome::Found(choices);
                };
                if allowed <= choices {
                    return Outcome::Stopped;
                }
                units::push(work, v, entries, first(work, v, variable), 1);
                front = Front {
                    head: entries,
                    len: entries + 1,
                };
                choices += 1;
            }
        }
    }
}

// Looks at each of the m clauses once, before any literal is false: no literal's block leads to a clause of one literal, or none.
pub fn begin(work: &mut [u32], v: usize, m: usize) -> Result<usize, Clash>
    requires { Loadable v m work.old }
    ensures { Begins v m work.old result work.new }
{
    let from = 7 * v;
    let mut entries = 0;
    for address in from..from + m {
        entries = units::visit(work, v, address, entries)?;
    }
    Ok(entries)
}

// The whole search in a work area that holds m clauses over v variables, with so many choices allowed: where a satisfying valuation was found, the values are it.
pub fn solve(work: &mut [u32], v: usize, m: usize, allowed: u64) -> Outcome
    requires { Loadable v m work.old }
    ensures { Solves v m allowed work.old result work.new }
{
    match begin(work, v, m) {
        Ok(len) => search(work, v, len, allowed),
        Err(_) => Outcome::Exhausted(0),
    }
}
