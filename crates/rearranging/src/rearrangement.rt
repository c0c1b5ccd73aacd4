// Rearrangements of the elements, one entry more at a time.
ghost use Rattle.std.specs.Prelude.{◌≡◌, cond, [], ◌++◌, ◌∷◌, ◌≤◌, ◌<◌, eqb};
ghost use Rattle.theory.specs.Lists.{all, elem, up_to};
ghost use Rattle.rearranging.specs.Entries.{EntriesHeld, rearrangement_in};

use indices::Element;
use syntax::limits::Problem;
use syntax::size::DomainSize;

// The first entries of a rearrangement, and the place of each element among them.
#[derive(Clone, Copy)]
pub struct Rearrangement {
    pub entries: [u8; Problem::MAX_SIZE],
    pub places: [u8; Problem::MAX_SIZE],
    pub count: usize,
}

impl Rearrangement {
    // the place of an element that is not among the entries
    pub const NOWHERE: u8 = 8;

    // No entries.
    pub fn none() -> Rearrangement
        ensures held { EntriesHeld result }
        ensures entries { rearrangement_in result ≡ [] }
    {
        Rearrangement {
            entries: [0; Problem::MAX_SIZE],
            places: [Rearrangement::NOWHERE; Problem::MAX_SIZE],
            count: 0,
        }
    }

    // Whether the element is among the entries.
    pub fn has(self, d: Element) -> bool
        requires { EntriesHeld self × (d.0 < 8) }
        ensures { result ≡ elem d.0 (rearrangement_in self) }
    {
        let i = d.0 as usize;
        self.places[i] < Rearrangement::NOWHERE
    }

    // One entry more.
    pub fn with(mut self, d: Element) -> Rearrangement
        requires { EntriesHeld self × ((d.0 < 8) × (self.count < 8)) }
        ensures held { EntriesHeld result }
        ensures entries { rearrangement_in result ≡ rearrangement_in self ++ (d.0 ∷ []) }
    {
        let n = self.count;
        let i = d.0 as usize;
        self.entries[n] = d.0;
        self.places[i] = first_place(self.places[i], n as u8);
        self.count = n + 1;
        self
    }

    // Whether every element of the domain is among the entries.
    pub fn covers(self, size: DomainSize) -> bool
        requires { EntriesHeld self × (size.0 ≤ 8) }
        ensures { result ≡ all (λ d. elem d (rearrangement_in self)) (up_to size.0) }
    {
        for d in 0..size.0 {
            if !self.has(Element(d as u8)) {
                return false;
            }
        }
        true
    }
}

// The place of an element that is now at place n too: the first stays.
fn first_place(place: u8, n: u8) -> u8
    ensures { result ≡ cond (eqb place 8) n place }
{
    if place == Rearrangement::NOWHERE {
        n
    } else {
        place
    }
}
