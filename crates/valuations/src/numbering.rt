// Propositional variables and their numbering: symbol by symbol, the last argument fastest, a function's cell one for each result.
ghost use Rattle.std.specs.Prelude.{◌≡◌, List, ℕ, ◌*◌, ◌^◌, ◌≤◌};
ghost use Rattle.theory.specs.Propositional as theory;
ghost use Rattle.syntax.specs.Signatures.{kind_of, signature_in};
ghost use Rattle.clauses.specs.Names.{Limited};
ghost use Rattle.valuations.specs.Numbers.{NumberingOf};

use interpretation::vector::power;
use syntax::limits::Problem;
use syntax::signature::{Signature, Symbol};
use syntax::size::DomainSize;

// Each symbol's first propositional variable, and how many a cell of it has.
#[derive(Clone, Copy)]
pub struct Numbering {
    pub bases: [u32; Problem::MAX_SYMBOLS],
    pub widths: [u32; Problem::MAX_SYMBOLS],
    // V: the number of all propositional variables
    pub count: u32,
}

pub fn numbering_of(signature: Signature, size: DomainSize) -> Numbering
    requires { Limited signature × (size.0 ≤ 8) }
    ensures { (sheet : List ℕ) → NumberingOf (signature_in sheet signature) size.0 result }
{
    let mut n = Numbering {
        bases: [0; Problem::MAX_SYMBOLS],
        widths: [0; Problem::MAX_SYMBOLS],
        count: 0,
    };
    for i in 0..signature.count {
        let symbol = signature.symbols[i];
        n.bases[i] = n.count;
        n.widths[i] = width(symbol.function, size);
        n.count += block_size(symbol, size);
    }
    n
}

// How many variables a cell has.
pub fn width(function: bool, size: DomainSize) -> u32
    requires { size.0 ≤ 8 }
    ensures { result ≡ theory.width size.0 (kind_of function) }
{
    if function {
        return size.0 as u32;
    }
    1
}

// How many variables a symbol has.
pub fn block_size(symbol: Symbol, size: DomainSize) -> u32
    requires { (symbol.arity ≤ 3) × (size.0 ≤ 8) }
    ensures { result ≡ size.0 ^ symbol.arity * theory.width size.0 (kind_of symbol.function) }
{
    let cells = power(size.0, symbol.arity as usize) as u32;
    cells * width(symbol.function, size)
}
