// The declared constants of a signature, in order.
ghost use Rattle.std.specs.Prelude.{◌≡◌, cond, count_by, List, [], ◌∷◌, ◌++◌, ℕ, ◌+◌, ◌≤◌, ◌<◌, length};
ghost use Rattle.symmetry.specs.ConstantClauses.{constant_places};
ghost use Rattle.syntax.specs.Signatures.{max_in_all, signature_in};
ghost use Rattle.clauses.specs.Names.{Limited};
ghost use Rattle.twins.specs.Constants.{ConstantsOf, constant_mark, held_bases};

use syntax::limits::Problem;
use syntax::signature::{Signature, Symbol};
use valuations::numbering::Numbering;

// How many variables come before those of each constant.
#[derive(Clone, Copy)]
pub struct Constants {
    pub first: [u32; Problem::MAX_SYMBOLS],
    pub count: usize,
}

pub fn constants_of(signature: Signature, n: Numbering) -> Constants
    requires { Limited signature × (signature.count ≤ length n.bases) }
    ensures { ConstantsOf signature n result }
{
    let mut constants = Constants {
        first: [0; Problem::MAX_SYMBOLS],
        count: 0,
    };
    for i in 0..signature.count {
        let symbol = signature.symbols[i];
        let marked = is_constant(symbol.function, symbol.helper, symbol.arity);
        constants = noted(constants, marked, n.bases[i]);
    }
    constants
}

// The constants, and one more where the symbol is marked.
fn noted(mut constants: Constants, marked: bool, base: u32) -> Constants
    requires { constants.count < max_in_all }
    ensures bases { held_bases result ≡ held_bases constants ++ cond marked (base ∷ []) [] }
    ensures few { result.count ≤ constants.count + 1 }
{
    if !marked {
        return constants;
    }
    let k = constants.count;
    constants.first[k] = base;
    constants.count = k + 1;
    constants
}

// How many they are.
pub fn constant_count(signature: Signature) -> usize
    requires { Limited signature }
    ensures count { (sheet : List ℕ) → result ≡ length (constant_places (signature_in sheet signature)) }
    ensures few { result ≤ max_in_all }
{
    marked_count(&signature.symbols[..signature.count])
}

// How many symbols are declared constants.
fn marked_count(symbols: &[Symbol]) -> usize
    ensures { result ≡ count_by (λ y. constant_mark y.function y.helper y.arity) symbols.now }
{
    symbols
        .iter()
        .filter(|y| is_constant(y.function, y.helper, y.arity))
        .count()
}

// Whether a symbol is a declared constant: a function without arguments that is no helper.
fn is_constant(function: bool, helper: bool, arity: u8) -> bool
    ensures { result ≡ constant_mark function helper arity }
{
    function && arity == 0 && !helper
}
