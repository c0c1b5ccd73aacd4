// Low and high, checked.
ghost use Rattle.std.specs.Prelude.{◌≡◌};
ghost use Rattle.ranges.specs.Ranges.{ends_of, checked_range};

use crate::size_range::SizeRange;
use syntax::size::DomainSize;

// The sizes from low to high, if both are sizes and in order.
pub fn checked_range(low: u64, high: u64) -> Option<SizeRange>
    ensures { ends_of result ≡ checked_range low high }
{
    let least = DomainSize::checked(low as usize)?;
    let most = DomainSize::checked(high as usize)?;
    if most.0 < least.0 {
        return None;
    }
    Some(SizeRange {
        low: least,
        high: most,
    })
}
