// The list of bytes that says a rearrangement: byte b is the element b - 1.
ghost use Rattle.std.specs.Prelude.{◌≡◌, ◌≤◌, is_some, IfSome};
ghost use Rattle.renumbered_cases.specs.RenumberedCases.{entries_of, is_listed};
ghost use Rattle.rearranging.specs.Entries.{EntriesHeld, rearrangement_in};

use crate::rearrangement::Rearrangement;
use indices::Element;
use syntax::size::DomainSize;

// The entries of a list that is a rearrangement of 1 to the size.
pub fn read_list(list: &[u8], size: DomainSize) -> Option<Rearrangement>
    requires { size.0 ≤ 8 }
    ensures taken { is_some result ≡ is_listed size.0 list.now }
    ensures entries { IfSome result (λ r. EntriesHeld r × (rearrangement_in r ≡ entries_of list.now)) }
{
    let mut r = Rearrangement::none();
    if list.len() != size.0 {
        return None;
    }
    for b in list {
        let d = (*b).checked_sub(1)?;
        if size.0 <= d as usize {
            return None;
        }
        r = r.with(Element(d));
    }
    r.covers(size).then_some(r)
}
