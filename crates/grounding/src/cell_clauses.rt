// The clauses of the function cells, in written order: some result, then not two.
ghost use Rattle.std.specs.Prelude.{◌≡◌, List, [], ◌∷◌, ℕ, ◌+◌, ◌*◌, ◌^◌, ◌≤◌, ◌<◌, take};
ghost use Rattle.theory.specs.PropClauses.{cell_clauses, not_both, not_two, some_result};
ghost use Rattle.syntax.specs.Signatures.{signature_in};
ghost use Rattle.clauses.specs.Names.{Limited};
ghost use Rattle.stream.specs.Literals.{prop_clause_of};
ghost use Rattle.stream.specs.Consuming.{Consumed, Consumes};
ghost use Rattle.valuations.specs.Numbers.{max_prop_vars, NumberingOf};
ghost use Rattle.grounding.specs.CellPart.{CellsNext, CellsTaken, not_with, row_clauses, symbol_clauses};

use indices::{Element, PropVar};
use interpretation::vector::power;
use propagation::literals::literal;
use stream::consumer::ClauseConsumer;
use syntax::limits::Problem;
use syntax::signature::{Signature, Symbol};
use syntax::size::DomainSize;
use valuations::numbering::Numbering;

// All function cells of a signature.
pub fn all_cells<C: ClauseConsumer>(
    signature: Signature,
    n: Numbering,
    size: DomainSize,
    consumer: &mut C,
)
    requires limited { Limited signature × (size.0 ≤ 8) }
    requires by_index { (sheet : List ℕ) → NumberingOf (signature_in sheet signature) size.0 n }
    requires cells_next { CellsNext C.effect signature size.0 consumer.old }
    ensures { CellsTaken C.effect signature size.0 consumer.old consumer.new }
{
    for i in 0..signature.count {
        symbol_cells(signature.symbols[i], PropVar(n.bases[i]), size, consumer);
    }
}

// The cells of a symbol, whose variables start with `base`, if it is a function.
fn symbol_cells<C: ClauseConsumer>(
    symbol: Symbol,
    base: PropVar,
    size: DomainSize,
    consumer: &mut C,
)
    requires arity_bound { (symbol.arity ≤ 3) × (size.0 ≤ 8) × (base.0 ≤ max_prop_vars) }
    requires consumes { Consumes C.effect (symbol_clauses size.0 base.0 symbol) consumer.old }
    ensures { Consumed C.effect (symbol_clauses size.0 base.0 symbol) consumer.old consumer.new }
{
    if !symbol.function {
        return;
    }
    let cells = power(size.0, symbol.arity as usize) as u32;
    table_cells(base, cells, size, consumer);
}

// So many cells, whose variables start with `base`.
fn table_cells<C: ClauseConsumer>(base: PropVar, cells: u32, size: DomainSize, consumer: &mut C)
    requires size_bound { (size.0 ≤ 8) × (cells ≤ 512) × (base.0 ≤ max_prop_vars) }
    requires consumes { Consumes C.effect (row_clauses size.0 base.0 cells) consumer.old }
    ensures { Consumed C.effect (row_clauses size.0 base.0 cells) consumer.old consumer.new }
{
    let width = size.0 as u32;
    for r in 0..cells {
        cell(PropVar(base.0 + r * width), size, consumer);
    }
}

// The cell whose first variable is x.
fn cell<C: ClauseConsumer>(x: PropVar, size: DomainSize, consumer: &mut C)
    requires size_bound { (size.0 ≤ 8) × (x.0 < 2 ^ 20) }
    requires consumes { Consumes C.effect (cell_clauses size.0 (1 + x.0)) consumer.old }
    ensures { Consumed C.effect (cell_clauses size.0 (1 + x.0)) consumer.old consumer.new }
{
    let some = some_result(x, size);
    let n = size.0;
    consumer.take(&some[..n]);
    not_two(x, size, consumer);
}

// The variable that says that the result is d, in the cell whose first variable is x.
pub fn result_is(x: PropVar, d: Element) -> PropVar
    requires { (x.0 < 2 ^ 20) × (d.0 < 8) }
    ensures { result.0 ≡ x.0 + d.0 }
{
    PropVar(x.0 + d.0 as u32)
}

// Some result: yes to each of the `size` variables from x on.
pub fn some_result(x: PropVar, size: DomainSize) -> [u32; Problem::MAX_SIZE]
    requires { (size.0 ≤ 8) × (x.0 < 2 ^ 20) }
    ensures { prop_clause_of (take size.0 result) ≡ some_result size.0 (1 + x.0) }
{
    let mut some = [0u32; Problem::MAX_SIZE];
    for d in 0..size.0 {
        some[d] = literal(result_is(x, Element(d as u8)), true);
    }
    some
}

// Not d or not e, for d < e in order.
fn not_two<C: ClauseConsumer>(x: PropVar, size: DomainSize, consumer: &mut C)
    requires size_bound { (size.0 ≤ 8) × (x.0 < 2 ^ 20) }
    requires consumes { Consumes C.effect (not_two size.0 (1 + x.0)) consumer.old }
    ensures { Consumed C.effect (not_two size.0 (1 + x.0)) consumer.old consumer.new }
{
    let n = size.0 as u8;
    for d in 0..n {
        not_with(x, Element(d), size, consumer);
    }
}

// Not d or not e, for each e after d.
fn not_with<C: ClauseConsumer>(x: PropVar, d: Element, size: DomainSize, consumer: &mut C)
    requires size_bound { (size.0 ≤ 8) × (x.0 < 2 ^ 20) × (d.0 < size.0) }
    requires consumes { Consumes C.effect (not_with size.0 (1 + x.0) d.0) consumer.old }
    ensures { Consumed C.effect (not_with size.0 (1 + x.0) d.0) consumer.old consumer.new }
{
    let n = size.0 as u8;
    for e in d.0 + 1..n {
        not_both(x, d, Element(e), consumer);
    }
}

// Not d or not e.
fn not_both<C: ClauseConsumer>(x: PropVar, d: Element, e: Element, consumer: &mut C)
    requires x_bound { (x.0 < 2 ^ 20) × (d.0 < 8) × (e.0 < 8) }
    requires consumes { Consumes C.effect (not_both (1 + x.0) d.0 e.0 ∷ []) consumer.old }
    ensures { Consumed C.effect (not_both (1 + x.0) d.0 e.0 ∷ []) consumer.old consumer.new }
{
    let both = [
        literal(result_is(x, d), false),
        literal(result_is(x, e), false),
    ];
    consumer.take(&both);
}
