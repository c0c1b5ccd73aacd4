// Clauses that are looked at because a literal of theirs became false: where one literal is left the trail takes it, and
// where none is left there is a clash.
ghost use Rattle.std.specs.Prelude.{◌≡◌, ◌+◌, ◌*◌, ◌/◌, ◌%◌, ◌<◌};
ghost use Rattle.std.proofs.Math.Seq.{slice};
ghost use Rattle.propagation.specs.Units.{pushed, visit_of, visited, scanned, Pushable, Visitable, Scannable};

use crate::weights::Weight;

// A clause is wholly false, and the trail is so long.
#[derive(Drop)]
pub struct Clash(pub usize);

// Makes the literal true, and puts it on the trail at the place: mark is 1 for a choice whose other value is untried.
pub fn push(work: &mut [u32], v: usize, place: usize, literal: u32, mark: u32)
    requires { Pushable v place literal mark work.old }
    ensures { work.new ≡ pushed v place literal mark work.old }
{
    let variable = (literal / 2) as usize;
    work[variable] = 1 + literal % 2;
    work[v + place] = 2 * literal + mark;
}

// Looks at the clause whose weight stands at the address, and answers the trail's length after looking.
pub fn visit(work: &mut [u32], v: usize, address: usize, len: usize) -> Result<usize, Clash>
    requires { Visitable v address len work.old }
    ensures { visit_of result work.new ≡ visited v address len work.old }
{
    let weight = Weight(work[address]);
    let live = weight.0 % Weight::BASE;
    if live == 0 {
        return Err(Clash(len));
    }
    if live != 1 {
        return Ok(len);
    }
    let literal = weight.0 / Weight::BASE;
    let value = work[(literal / 2) as usize];
    if value == 0 {
        push(work, v, len, literal, 0);
        return Ok(len + 1);
    }
    if value != 1 + literal % 2 {
        return Err(Clash(len));
    }
    Ok(len)
}

// Looks at the clauses whose weights' addresses stand in work from `from` to `to`, up to a clash.
pub fn scan(work: &mut [u32], v: usize, from: usize, to: usize, len: usize) -> Result<usize, Clash>
    requires { Scannable v from from to len work.old }
    ensures { visit_of result work.new ≡ scanned v (slice from to work.old) len work.old }
{
    let mut entries = len;
    for place in from..to {
        let address = work[place] as usize;
        entries = visit(work, v, address, entries)?;
    }
    Ok(entries)
}
