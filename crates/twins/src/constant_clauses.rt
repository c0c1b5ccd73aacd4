// The constant clauses, constant by constant: its range, then each further result, which it has only if an earlier constant has the one before.
ghost use Rattle.std.specs.Prelude.{◌≡◌, List, [], ◌∷◌, ℕ, suc, ◌-◌, ◌≤◌, ◌<◌, min, take};
ghost use Rattle.syntax.specs.Signatures.{signature_in};
ghost use Rattle.clauses.specs.Names.{Limited};
ghost use Rattle.stream.specs.Literals.{prop_clause_of};
ghost use Rattle.stream.specs.Consuming.{Consumed, Consumes};
ghost use Rattle.valuations.specs.Numbers.{NumberingOf};
ghost use Rattle.twins.specs.Constants.{Held, held_bases};
ghost use Rattle.twins.specs.TwinPart.{TwinsNext, TwinsTaken, after_clause, all_twins, step_clauses, twin_clauses};

use crate::constants::{Constants, constants_of};
use grounding::cell_clauses::{result_is, some_result};
use indices::{Element, PropVar};
use propagation::literals::literal;
use stream::consumer::ClauseConsumer;
use syntax::limits::Problem;
use syntax::signature::Signature;
use syntax::size::DomainSize;
use valuations::numbering::Numbering;

// All declared constants of a signature.
pub fn all_constants<C: ClauseConsumer>(
    signature: Signature,
    n: Numbering,
    size: DomainSize,
    consumer: &mut C,
)
    requires limited { Limited signature × (1 ≤ size.0) × (size.0 ≤ 8) }
    requires by_index { (sheet : List ℕ) → NumberingOf (signature_in sheet signature) size.0 n }
    requires twins_next { TwinsNext C.effect signature size.0 consumer.old }
    ensures { TwinsTaken C.effect signature size.0 consumer.old consumer.new }
{
    let constants = constants_of(signature, n);
    each_constant(constants, size, consumer);
}

// One after the other.
fn each_constant<C: ClauseConsumer>(constants: Constants, size: DomainSize, consumer: &mut C)
    requires held { Held constants × (1 ≤ size.0) × (size.0 ≤ 8) }
    requires consumes { Consumes C.effect (all_twins size.0 (held_bases constants)) consumer.old }
    ensures { Consumed C.effect (all_twins size.0 (held_bases constants)) consumer.old consumer.new }
{
    for i in 0..constants.count {
        constant(constants, i, size, consumer);
    }
}

// The constant that i others come before: the range, then the further results.
fn constant<C: ClauseConsumer>(constants: Constants, i: usize, size: DomainSize, consumer: &mut C)
    requires held { Held constants × (i < constants.count) × (1 ≤ size.0) × (size.0 ≤ 8) }
    requires consumes { Consumes C.effect (twin_clauses size.0 (held_bases constants) i) consumer.old }
    ensures { Consumed C.effect (twin_clauses size.0 (held_bases constants) i) consumer.old consumer.new }
{
    let most = (i + 1).min(size.0);
    let range = some_result(PropVar(constants.first[i]), DomainSize(most));
    consumer.take(&range[..most]);
    further(constants, i, most, consumer);
}

// The results after the first, of `most`.
fn further<C: ClauseConsumer>(constants: Constants, i: usize, most: usize, consumer: &mut C)
    requires held { Held constants × (i < constants.count) × (1 ≤ most) × (most ≤ 8) }
    requires consumes { Consumes C.effect (step_clauses (held_bases constants) i (most - 1)) consumer.old }
    ensures { Consumed C.effect (step_clauses (held_bases constants) i (most - 1)) consumer.old consumer.new }
{
    let steps = (most - 1) as u8;
    for d in 0..steps {
        only_after(constants, i, Element(d), consumer);
    }
}

// The result after d only if an earlier constant has d.
fn only_after<C: ClauseConsumer>(constants: Constants, i: usize, d: Element, consumer: &mut C)
    requires held { Held constants × (i < constants.count) × (d.0 < 7) }
    requires consumes { Consumes C.effect (after_clause (held_bases constants) i d.0 ∷ []) consumer.old }
    ensures { Consumed C.effect (after_clause (held_bases constants) i d.0 ∷ []) consumer.old consumer.new }
{
    let codes = after_codes(constants, i, d);
    consumer.take(&codes[..i + 1]);
}

// Its literals: not the result after d, then yes to d of each constant before.
fn after_codes(constants: Constants, i: usize, d: Element) -> [u32; Problem::MAX_SYMBOLS]
    requires { Held constants × (i < constants.count) × (d.0 < 7) }
    ensures { prop_clause_of (take (suc i) result) ≡ after_clause (held_bases constants) i d.0 }
{
    let mut codes = [0u32; Problem::MAX_SYMBOLS];
    let next = result_is(PropVar(constants.first[i]), Element(d.0 + 1));
    codes[0] = literal(next, false);
    for j in 0..i {
        let held = result_is(PropVar(constants.first[j]), d);
        codes[j + 1] = literal(held, true);
    }
    codes
}
