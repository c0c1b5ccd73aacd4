// All rearrangements, one entry after the other, and the least of what they make.
ghost use Rattle.std.specs.Prelude.{◌≡◌, List, map, ℕ, ◌-◌};
ghost use Rattle.renumbering.specs.Rearrangements.{continued};
ghost use Rattle.renumbering.specs.Renumbering.{renumbered};
ghost use Rattle.syntax.specs.Signatures.{signature_in};
ghost use Rattle.rearranging.specs.Entries.{rearrangement_in};
ghost use Rattle.rearranging.specs.Candidates.{InterpretationLent};
ghost use Rattle.rearranging.specs.All.{Extendable, lesser_of};

use crate::candidates::take_renumbered;
use crate::rearrangement::Rearrangement;
use crate::standing::Standing;
use indices::Element;
use syntax::signature::Signature;
use syntax::size::DomainSize;

// Keeps the least, in value order, of the cells held and the cells renumbered by each rearrangement that begins with these entries.
pub fn take_all(
    cells: &[u8],
    signature: Signature,
    size: DomainSize,
    begun: Rearrangement,
    held: &mut [u8],
)
    requires { InterpretationLent size.0 signature cells.now held.old × Extendable size.0 begun }
    ensures { (sheet : List ℕ) → held.new
        ≡ lesser_of held.old (map (λ p. renumbered size.0 (signature_in sheet signature) p cells.now) (continued size.0 (size.0 - begun.count) (rearrangement_in begun))) }
{
    if size.0 <= begun.count {
        take_renumbered(cells, signature, size, begun, Standing::Same, held);
        return;
    }
    for d in 0..size.0 {
        let next = Element(d as u8);
        if begun.has(next) {
            continue;
        }
        take_all(cells, signature, size, begun.with(next), held);
    }
}
