// Argument vectors, counted through by value: the last place runs fastest.
ghost use Rattle.std.specs.Prelude.{◌≡◌, ◌^◌, ◌≤◌};
ghost use Rattle.interpretation.specs.Vectors.{IsNext, IsVector, first_vector};

use syntax::limits::Problem;
use syntax::size::DomainSize;

// The first `count` digits are each below `size`.
#[derive(Drop)]
pub struct ArgumentVector {
    pub digits: [u8; Problem::MAX_VARIABLES],
    pub count: usize,
    pub size: DomainSize,
}

impl ArgumentVector {
    pub fn first(count: usize, size: DomainSize) -> ArgumentVector
        ensures { result ≡ first_vector count size }
    {
        ArgumentVector {
            digits: [0; Problem::MAX_VARIABLES],
            count,
            size,
        }
    }

    // The next vector; after the last one comes the first.
    pub fn step(mut self) -> ArgumentVector
        requires { IsVector self }
        ensures { IsNext self result }
    {
        let size = self.size.0 as u8;
        for i in (0..self.count).rev() {
            let d = self.digits[i];
            if d + 1 < size {
                self.digits[i] = d + 1;
                return self;
            }
            self.digits[i] = 0;
        }
        self
    }
}

// base ^ count: how many vectors of `count` digits below `base` there are.
pub fn power(base: usize, count: usize) -> usize
    requires { (base ≤ 8) × (count ≤ 10) }
    ensures { result ≡ base ^ count }
{
    base.pow(count as u32)
}
