// A candidate: the cells of an interpretation, renumbered. No table of it is made: each cell is taken from the cell that it comes from.
ghost use Rattle.std.specs.Prelude.{◌≡◌, List, ℕ, ◌<◌};
ghost use Rattle.renumbering.specs.Renumbering.{new_value, renumbered};
ghost use Rattle.syntax.specs.Signatures.{kind_of, signature_in};
ghost use Rattle.rearranging.specs.Entries.{EntriesHeld, rearrangement_in};
ghost use Rattle.rearranging.specs.Keeping.{CandidateTaken, kept_cells};
ghost use Rattle.rearranging.specs.Candidates.{InterpretationLent, PartLent, part_of, Rearranges};

use crate::rearrangement::Rearrangement;
use crate::standing::{Standing, take_value};
use indices::Cell;
use interpretation::vector::power;
use syntax::signature::Signature;
use syntax::size::DomainSize;

// Keeps the lesser, in value order, of the cells held and the renumbered cells; told Before, the renumbered cells.
pub fn take_renumbered(
    cells: &[u8],
    signature: Signature,
    size: DomainSize,
    r: Rearrangement,
    standing: Standing,
    held: &mut [u8],
)
    requires { InterpretationLent size.0 signature cells.now held.old × Rearranges size.0 r }
    ensures { (sheet : List ℕ) → held.new ≡ kept_cells (renumbered size.0 (signature_in sheet signature) (rearrangement_in r) cells.now) held.old standing }
{
    let mut stands = standing;
    let mut base: usize = 0;
    for i in 0..signature.count {
        let symbol = signature.symbols[i];
        let arity = symbol.arity as usize;
        stands = take_part(
            cells,
            Cell(base),
            held,
            Cell(base),
            arity,
            symbol.function,
            size,
            r,
            stands,
        );
        base += power(size.0, arity);
    }
}

// The part of a symbol's table in which `left` arguments are open: it starts at `at`, and the part that it comes from at `from`. Nothing is read once what is held stays.
fn take_part(
    cells: &[u8],
    from: Cell,
    held: &mut [u8],
    at: Cell,
    left: usize,
    function: bool,
    size: DomainSize,
    r: Rearrangement,
    standing: Standing,
) -> Standing
    requires { PartLent size.0 r left from.0 at.0 cells.now held.old }
    ensures { CandidateTaken (part_of size.0 (kind_of function) (rearrangement_in r) cells.now left from.0) at.0 held.old held.new standing result }
{
    if standing == Standing::After {
        return Standing::After;
    }
    let first = from.0;
    if left == 0 {
        return take_value(held, at, renamed(r, function, cells[first]), standing);
    }
    let step = power(size.0, left - 1);
    let mut stands = standing;
    let mut to = at.0;
    for d in 0..size.0 {
        let start = first + r.places[d] as usize * step;
        stands = take_part(
            cells,
            Cell(start),
            held,
            Cell(to),
            left - 1,
            function,
            size,
            r,
            stands,
        );
        to += step;
    }
    stands
}

// A value renumbered: an element has a new number, a truth value stays.
fn renamed(r: Rearrangement, function: bool, value: u8) -> u8
    requires { EntriesHeld r × (value < 8) }
    ensures { result ≡ new_value (kind_of function) (rearrangement_in r) value }
{
    if function {
        let d = value as usize;
        return r.entries[d];
    }
    value
}
