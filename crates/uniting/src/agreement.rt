// Whether two sheets' symbols agree: a shared name has the same kind and arity in both.
ghost use Rattle.std.specs.Prelude.{◌≡◌, ◌+◌, ◌≤◌, length};
ghost use Rattle.theory.specs.Lists as lists;
ghost use Rattle.sheet_merging.specs.Merging as merging;
ghost use Rattle.syntax.specs.Signatures.{symbol_in, signature_in};
ghost use Rattle.clauses.specs.Names.{Readable};

use syntax::signature::{Signature, Symbol};

pub fn agree(first: &[u8], own: Signature, second: &[u8], other: Signature) -> bool
    requires { Readable first.now own × Readable second.now other }
    ensures { result ≡ merging.agree (signature_in first.now own) (signature_in second.now other) }
{
    (0..other.count).all(|i| agrees(first, own, second, other.symbols[i]))
}

// Whether a symbol of the second sheet agrees with each of the first.
fn agrees(first: &[u8], own: Signature, second: &[u8], symbol: Symbol) -> bool
    requires { Readable first.now own × (symbol.name + symbol.length ≤ length second.now) }
    ensures { result ≡ lists.all (merging.may_meet (symbol_in second.now symbol)) (signature_in first.now own) }
{
    (0..own.count).all(|i| may_meet(first, own.symbols[i], second, symbol))
}

// Whether a symbol of the first sheet and one of the second may stand in one sheet.
fn may_meet(first: &[u8], own: Symbol, second: &[u8], other: Symbol) -> bool
    requires { (own.name + own.length ≤ length first.now) × (other.name + other.length ≤ length second.now) }
    ensures { result ≡ merging.may_meet (symbol_in second.now other) (symbol_in first.now own) }
{
    let from = own.name;
    let to = from + own.length;
    let start = other.name;
    let end = start + other.length;
    second[start..end] != first[from..to]
        || (own.arity == other.arity && other.function == own.function)
}
