// The first values: a function's variables are tried at yes first, a predicate's at no, so that the first valuation found is that of the least model.
ghost use Rattle.std.specs.Prelude.{◌≡◌, List, ℕ, ◌≤◌};
ghost use Rattle.theory.specs.Propositional.{prop_count};
ghost use Rattle.theory.specs.Walk.{yes_first};
ghost use Rattle.theory.specs.Operations.{max_size};
ghost use Rattle.propagation.specs.WorkArea.{Regions, Prefers};
ghost use Rattle.loading.specs.Loading.{KeepsClauses};
ghost use Rattle.syntax.specs.Signatures.{signature_in};
ghost use Rattle.clauses.specs.Names.{Limited};

use indices::PropVar;
use loading::prefer;
use syntax::signature::Signature;
use syntax::size::DomainSize;
use valuations::numbering::block_size;

// The first values of all v variables, symbol by symbol.
pub fn prefer_all(signature: Signature, size: DomainSize, v: usize, work: &mut [u32])
    requires limited { Limited signature × (size.0 ≤ max_size) }
    requires by_index { (sheet : List ℕ) → v ≡ prop_count size.0 (signature_in sheet signature) }
    requires regions { Regions v work.old }
    ensures clauses { KeepsClauses v work.old work.new }
    ensures values { (sheet : List ℕ) → Prefers v v (yes_first size.0 (signature_in sheet signature)) work.new }
{
    let mut from = PropVar(0);
    for i in 0..signature.count {
        let symbol = signature.symbols[i];
        let end = from.0 + block_size(symbol, size);
        prefer(work, v, from, PropVar(end), symbol.function);
        from = PropVar(end);
    }
}
