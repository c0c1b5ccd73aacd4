// Encoding: all clauses of a problem at a size, in written order.
#![tactic(auto)]

ghost use Rattle.std.specs.Prelude.{List, ℕ, ◌≤◌};
ghost use Rattle.syntax.specs.Signatures.{signature_in};
ghost use Rattle.clauses.specs.Names.{Limited};
ghost use Rattle.problem.specs.Problems.{Accepted};
ghost use Rattle.valuations.specs.Numbers.{NumberingOf};
ghost use Rattle.encoding.specs.Passes.{AllNext, AllTaken, UsedNext, UsedTaken};

use grounding::cell_clauses::all_cells;
use instancing::instances::all_instances;
use stream::consumer::ClauseConsumer;
use syntax::limits::Problem;
use syntax::size::DomainSize;
use twins::constant_clauses::all_constants;
use valuations::numbering::Numbering;

// The clauses of the function cells, the constant clauses where they are used, then the instances of the clauses.
pub fn all_clauses<C: ClauseConsumer>(
    sheet: &[u8],
    p: Problem,
    n: Numbering,
    size: DomainSize,
    consumer: &mut C,
)
    requires accepted { Accepted sheet.now p × (1 ≤ size.0) × (size.0 ≤ 8) }
    requires numbering_of { NumberingOf (signature_in sheet.now p.signature) size.0 n }
    requires all_next { AllNext C.effect sheet.now p size.0 consumer.old }
    ensures { AllTaken C.effect sheet.now p size.0 consumer.old consumer.new }
{
    all_cells(p.signature, n, size, consumer);
    used_constants(p, n, size, consumer);
    all_instances(sheet, p, n, size, consumer);
}

// The constant clauses, where they are used.
fn used_constants<C: ClauseConsumer>(p: Problem, n: Numbering, size: DomainSize, consumer: &mut C)
    requires limited { Limited p.signature × (1 ≤ size.0) × (size.0 ≤ 8) }
    requires by_index { (sheet : List ℕ) → NumberingOf (signature_in sheet p.signature) size.0 n }
    requires used_next { UsedNext C.effect p size.0 consumer.old }
    ensures { UsedTaken C.effect p size.0 consumer.old consumer.new }
{
    if !p.symmetry {
        return;
    }
    all_constants(p.signature, n, size, consumer);
}
