// The sizes that are searched, which are sizes and in order.
ghost use Rattle.std.specs.Prelude.{◌≤◌};
ghost use Rattle.theory.specs.Operations.{max_size};

use syntax::size::DomainSize;

// The sizes from low to high.
#[derive(Clone, Copy)]
pub struct SizeRange {
    pub low: DomainSize,
    pub high: DomainSize,
    pub ghost positive: { 1 ≤ low.0 },
    pub ghost ordered: { low.0 ≤ high.0 },
    pub ghost within: { high.0 ≤ max_size },
}
