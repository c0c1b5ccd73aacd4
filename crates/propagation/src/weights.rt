// The weights of clauses, one number each, and the occurrences of literals, which are addresses of weights.
ghost use Rattle.std.specs.Prelude.{◌≡◌, ℕ};
ghost use Rattle.std.proofs.Math.Seq.{slice};
ghost use Rattle.propagation.specs.Weights.{changed, less, more, Addresses, AtLeast, RoomFor};

// The weight of a clause, one number: the sum of BASE * l + 1 over its literals l that are not false.
#[derive(Drop)]
pub struct Weight(pub u32);

impl Weight {
    // more than a clause has literals: a weight's remainder by it is how many of them are left
    pub const BASE: u32 = 64;
}

// Changes each weight whose address stands in work from `from` to `to`.
fn change<F: Fn(u32) -> u32>(work: &mut [u32], from: usize, to: usize, f: F)
    requires { Addresses (F.pre f) from from to work.old }
    ensures { (g : ℕ → ℕ) → ((z r : ℕ) → F.post f z r → r ≡ g z) → work.new ≡ changed g (slice from to work.old) work.old }
{
    for place in from..to {
        let address = work[place] as usize;
        work[address] = f(work[address]);
    }
}

// Takes the amount from each weight whose address stands in work from `from` to `to`.
pub fn lower(work: &mut [u32], from: usize, to: usize, amount: u32)
    requires { Addresses (AtLeast amount) from from to work.old }
    ensures { work.new ≡ changed (less amount) (slice from to work.old) work.old }
{
    change(work, from, to, |weight| weight - amount);
}

// Adds the amount to each weight whose address stands in work from `from` to `to`: what undoes `lower`.
pub fn raise(work: &mut [u32], from: usize, to: usize, amount: u32)
    requires { Addresses (RoomFor amount) from from to work.old }
    ensures { work.new ≡ changed (more amount) (slice from to work.old) work.old }
{
    change(work, from, to, |weight| weight + amount);
}
