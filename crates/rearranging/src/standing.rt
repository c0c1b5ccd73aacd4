// How a candidate stands to the cells that are held, cell by cell: the lesser of both in value order is kept.
ghost use Rattle.std.specs.Prelude.{◌≡◌, ◌<◌, get_or, length, set};
ghost use Rattle.rearranging.specs.declared.standing.Standing.TheVariants.{Same};
ghost use Rattle.rearranging.specs.Keeping.{kept_value, standing_after};

use indices::Cell;

// A candidate against the cells held, as far as they are compared.
#[derive(Clone, Copy, PartialEq, Eq)]
pub enum Standing {
    // equal so far
    Same,
    // the candidate is less at the first cell in which they differ: it is kept
    Before,
    // it is greater there: what is held stays
    After,
}

// The candidate's next value, at the cell `at` of those held.
pub fn take_value(held: &mut [u8], at: Cell, value: u8, standing: Standing) -> Standing
    requires { at.0 < length held.old }
    ensures kept { held.new ≡ set held.old at.0 (kept_value standing value (get_or held.old at.0 0)) }
    ensures stands { result ≡ standing_after standing value (get_or held.old at.0 0) }
{
    match standing {
        Standing::Same => take_lesser(held, at, value),
        Standing::Before => {
            let i = at.0;
            held[i] = value;
            Standing::Before
        }
        Standing::After => Standing::After,
    }
}

// The same where candidate and cells are equal so far.
fn take_lesser(held: &mut [u8], at: Cell, value: u8) -> Standing
    requires { at.0 < length held.old }
    ensures kept { held.new ≡ set held.old at.0 (kept_value Same value (get_or held.old at.0 0)) }
    ensures stands { result ≡ standing_after Same value (get_or held.old at.0 0) }
{
    let i = at.0;
    let old = held[i];
    if value < old {
        held[i] = value;
        return Standing::Before;
    }
    if old < value {
        return Standing::After;
    }
    Standing::Same
}
