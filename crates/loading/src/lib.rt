// Loading clauses into a work area, in two passes: one counts the occurrences of each literal, one enters the clauses.
#![tactic(auto)]

ghost use Rattle.std.specs.Prelude.{◌≡◌, cond, ◌++◌, ◌^◌, ◌≤◌, ◌<◌, length, replicate, drop};
ghost use Rattle.propagation.specs.WorkArea.{Regions};
ghost use Rattle.loading.specs.Filling.{ends_with, enters};
ghost use Rattle.loading.specs.Loading.{Tallyable, Tallies, Boundable, LaysOut, LiteralEnterable, Enterable, EntersNext, KeepsClauses, PrefersMore};

use indices::PropVar;
use propagation::weights::Weight;

// All numbers become zeros.
pub fn clear_all(work: &mut [u32])
    ensures { work.new ≡ replicate (length work.old) 0 }
{
    work.fill(0);
}

// Counts the literals of one clause more, in a work area that was cleared before the first.
pub fn tally(work: &mut [u32], v: usize, clause: &[u32])
    requires { Tallyable v clause.now work.old }
    ensures { Tallies v clause.now work.old work.new }
{
    for literal in clause {
        work[2 * v + 2 * *literal as usize + 1] += 1;
    }
}

// The m clauses are counted: each literal gets an empty block with room for its occurrences.
pub fn bounds(work: &mut [u32], v: usize, m: usize)
    requires { Boundable v m work.old }
    ensures { LaysOut v m work.old work.new }
{
    let mut start = (7 * v + m) as u32;
    for literal in 0..2 * v {
        let at = 2 * v + 2 * literal;
        let count = work[at + 1];
        work[at] = start;
        work[at + 1] = start;
        start += count;
    }
}

// Whether the address is the last entry of work[from..to].
pub fn ends_with(work: &[u32], from: usize, to: usize, address: u32) -> bool
    requires { to ≤ length work.now }
    ensures { result ≡ ends_with from to address work.now }
{
    from < to && work[to - 1] == address
}

// One literal more in the clause whose weight stands at the address, unless the clause has it already:
// its block then ends with the address, since the clause is the last that was begun.
pub fn enter_literal(work: &mut [u32], v: usize, literal: u32, address: u32)
    requires { LiteralEnterable v literal address work.old }
    ensures { work.new ≡ enters v literal address work.old }
{
    let at = 2 * v + 2 * literal as usize;
    let from = work[at] as usize;
    let end = work[at + 1];
    let to = end as usize;
    if ends_with(work, from, to, address) {
        return;
    }
    let place = address as usize;
    let weight = work[place];
    work[to] = address;
    work[at + 1] = end + 1;
    work[place] = weight + Weight::BASE * literal + 1;
}

// Enters the next of the counted clauses, `number` of which are entered.
pub fn enter(work: &mut [u32], v: usize, clause: &[u32], number: usize)
    requires { Enterable v clause.now number work.old }
    ensures { EntersNext v clause.now number work.old work.new }
{
    let address = (7 * v + number) as u32;
    for literal in clause.iter().rev() {
        enter_literal(work, v, *literal, address);
    }
}

// The variables from `from` to `to` are tried at this value first. The first values are told after the clauses are entered, from variable 0 on.
pub fn prefer(work: &mut [u32], v: usize, from: PropVar, to: PropVar, value: bool)
    requires regions { Regions v work.old }
    requires from_le_to { from.0 ≤ to.0 }
    requires to_le_v { to.0 ≤ v }
    ensures clauses { KeepsClauses v work.old work.new }
    ensures values { PrefersMore v from.0 to.0 value work.old work.new }
{
    let start = 6 * v + from.0 as usize;
    let end = 6 * v + to.0 as usize;
    work[start..end].fill(u32::from(value));
}
