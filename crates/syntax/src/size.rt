// Domain sizes.
ghost use Rattle.std.specs.Prelude.{◌≡◌};
ghost use Rattle.syntax.specs.Sizes.{checked_size};

use crate::limits::Problem;

// A domain size, 1 to Problem::MAX_SIZE.
#[derive(Clone, Copy)]
pub struct DomainSize(pub usize);

impl DomainSize {
    // the digit before those of sizes
    pub const ZERO_DIGIT: u8 = b'0';

    pub fn checked(n: usize) -> Option<DomainSize>
        ensures { result ≡ checked_size n }
    {
        (1 <= n && n <= Problem::MAX_SIZE).then_some(DomainSize(n))
    }
}
