// Where the table of each symbol starts among the cells.
ghost use Rattle.std.specs.Prelude.{List, ◌≤◌, ℕ};
ghost use Rattle.syntax.specs.Signatures.{signature_in};
ghost use Rattle.clauses.specs.Names.{Limited};
ghost use Rattle.interpretation.specs.Tables.{TablesOf};

use crate::vector::power;
use syntax::limits::Problem;
use syntax::signature::Signature;
use syntax::size::DomainSize;

// Each symbol's arity, whether it is a function, and the number of its first cell.
#[derive(Drop)]
pub struct Tables {
    pub arities: [u8; Problem::MAX_SYMBOLS],
    pub functions: [bool; Problem::MAX_SYMBOLS],
    pub bases: [usize; Problem::MAX_SYMBOLS],
    // the number of all cells
    pub cells: usize,
}

pub fn tables_of(signature: Signature, size: DomainSize) -> Tables
    requires { Limited signature × (size.0 ≤ 8) }
    ensures { (sheet : List ℕ) → TablesOf (signature_in sheet signature) size.0 result }
{
    let mut t = Tables {
        arities: [0; Problem::MAX_SYMBOLS],
        functions: [false; Problem::MAX_SYMBOLS],
        bases: [0; Problem::MAX_SYMBOLS],
        cells: 0,
    };
    for i in 0..signature.count {
        let symbol = signature.symbols[i];
        t.arities[i] = symbol.arity;
        t.functions[i] = symbol.function;
        t.bases[i] = t.cells;
        t.cells += power(size.0, symbol.arity as usize);
    }
    t
}
