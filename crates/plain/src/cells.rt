// The tables that the plain engine fills, and how many values each cell has.
ghost use Rattle.std.specs.Prelude.{◌≡◌, List, ◌++◌, ℕ, ◌+◌, ◌≤◌, replicate, take};
ghost use Rattle.theory.specs.Cells.{cell_count};
ghost use Rattle.theory.specs.PlainSearch.{max_plain_cells};
ghost use Rattle.syntax.specs.Signatures.{signature_in};
ghost use Rattle.clauses.specs.Names.{Limited};
ghost use Rattle.plain.specs.Filling.{choices_of};

use cases::values::value_count;
use interpretation::vector::power;
use syntax::signature::Signature;
use syntax::size::DomainSize;

// The values of the cells, in cell order; 0 in those that are not used.
#[derive(Clone, Copy)]
pub struct PlainCells {
    pub values: [u8; PlainCells::MAX],
}

impl PlainCells {
    // the most cells of all symbols
    pub const MAX: usize = 64;
}

// How many values each of the first `count` cells has.
#[derive(Drop)]
pub struct Choices {
    pub values: [u8; PlainCells::MAX],
    pub count: usize,
}

impl Choices {
    // The choices with n cells more, of so many values each.
    fn with(mut self, values: u8, n: usize) -> Choices
        requires { self.count + n ≤ max_plain_cells }
        ensures count { result.count ≡ self.count + n }
        ensures values { take result.count result.values ≡ take self.count self.values ++ replicate n values }
    {
        let from = self.count;
        let end = from + n;
        self.values[from..end].fill(values);
        self.count = end;
        self
    }
}

// The choices of all cells, symbol by symbol.
pub fn choices_of(signature: Signature, size: DomainSize) -> Choices
    requires limited { Limited signature × (size.0 ≤ 8) }
    requires by_index { (sheet : List ℕ) → cell_count size.0 (signature_in sheet signature) ≤ max_plain_cells }
    ensures count { (sheet : List ℕ) → result.count ≡ cell_count size.0 (signature_in sheet signature) }
    ensures values { (sheet : List ℕ) → take result.count result.values ≡ choices_of size.0 (signature_in sheet signature) }
{
    let mut choices = Choices {
        values: [0; PlainCells::MAX],
        count: 0,
    };
    for i in 0..signature.count {
        let symbol = signature.symbols[i];
        let n = power(size.0, symbol.arity as usize);
        choices = choices.with(value_count(symbol.function, size), n);
    }
    choices
}
