// The instances of a problem's clauses, in written order.
ghost use Rattle.std.specs.Prelude.{◌≡◌, ℕ, ◌+◌, ◌*◌, ◌^◌, ◌≤◌, ◌<◌, length};
ghost use Rattle.syntax.specs.Signatures.{signature_in};
ghost use Rattle.problem.specs.Problems.{Accepted};
ghost use Rattle.valuations.specs.Numbers.{NumberingOf};
ghost use Rattle.forms.specs.LinearForms.{AllSafe};
ghost use Rattle.instancing.specs.Choices.{ChoiceAt};
ghost use Rattle.instancing.specs.ClauseForms.{FormsNext, FormsTaken, InstanceNext, InstanceTaken};
ghost use Rattle.instancing.specs.InstancePart.{ClauseNext, ClauseTaken, InstancesNext, InstancesTaken};

use flattening::flat::flatten;
use forms::instance::instance_at;
use forms::linear::forms_of;
use interpretation::vector::{ArgumentVector, power};
use problem::clause_lines::clause_words;
use stream::consumer::ClauseConsumer;
use syntax::limits::Problem;
use syntax::size::DomainSize;
use valuations::numbering::Numbering;

// The instances of all clauses of a problem.
pub fn all_instances<C: ClauseConsumer>(
    sheet: &[u8],
    p: Problem,
    n: Numbering,
    size: DomainSize,
    consumer: &mut C,
)
    requires accepted { Accepted sheet.now p × (size.0 ≤ 8) }
    requires numbering_of { NumberingOf (signature_in sheet.now p.signature) size.0 n }
    requires instances_next { InstancesNext C.effect sheet.now p size.0 consumer.old }
    ensures { InstancesTaken C.effect sheet.now p size.0 consumer.old consumer.new }
{
    for k in 0..p.count {
        one_clause(sheet, p, k, n, size, consumer);
    }
}

// The instances of clause k.
fn one_clause<C: ClauseConsumer>(
    sheet: &[u8],
    p: Problem,
    k: usize,
    n: Numbering,
    size: DomainSize,
    consumer: &mut C,
)
    requires accepted { Accepted sheet.now p × (k < p.count) × (size.0 ≤ 8) }
    requires numbering_of { NumberingOf (signature_in sheet.now p.signature) size.0 n }
    requires clause_next { ClauseNext C.effect sheet.now p k size.0 consumer.old }
    ensures { ClauseTaken C.effect sheet.now p k size.0 consumer.old consumer.new }
{
    let words = clause_words(sheet, p, k);
    let signature = p.signature;
    let arities = signature.arities();
    let flat = flatten(words, &arities);
    let made = forms_of(flat, &arities, n, size);
    let forms = made.forms;
    clause_instances(&forms, made.count, flat.variables, size, consumer);
}

// The instances that the forms of a clause of so many variables give, the last variable fastest.
fn clause_instances<C: ClauseConsumer>(
    forms: &[u32],
    count: usize,
    variables: usize,
    size: DomainSize,
    consumer: &mut C,
)
    requires all_safe { AllSafe count forms.now × (count ≤ 26) × (count * 10 ≤ length forms.now) × (variables ≤ 10) × (size.0 ≤ 8) }
    requires forms_next { FormsNext C.effect size.0 variables count forms.now consumer.old }
    ensures { FormsTaken C.effect size.0 variables count forms.now consumer.old consumer.new }
{
    let choices = power(size.0, variables);
    let mut values = ArgumentVector::first(variables, size);
    for _i in 0..choices {
        let digits = values.digits;
        one_instance(forms, count, &digits, consumer);
        values = next_choice(values);
    }
}

// The instance under these values, unless it is dropped.
fn one_instance<C: ClauseConsumer>(forms: &[u32], count: usize, values: &[u8], consumer: &mut C)
    requires all_safe { AllSafe count forms.now × (count ≤ 26) × (count * 10 ≤ length forms.now) × (length values.now ≡ 10) }
    requires instance_next { InstanceNext C.effect values.now count forms.now consumer.old }
    ensures { InstanceTaken C.effect values.now count forms.now consumer.old consumer.new }
{
    let mut codes = [0u32; Problem::MAX_FLAT_LITERALS];
    let Some(literals) = instance_at(forms, count, values, &mut codes) else {
        return;
    };
    consumer.take(&codes[..literals]);
}

// The next choice of values. At size 0 only a clause without variables has a choice, and no other follows.
fn next_choice(values: ArgumentVector) -> ArgumentVector
    requires { (s : ℕ) × (n : ℕ) × (i : ℕ) × (i < s ^ n) × ChoiceAt s n values i }
    ensures { (s n i : ℕ) → i < s ^ n → ChoiceAt s n values i → ChoiceAt s n result (i + 1) }
{
    if values.size.0 == 0 {
        return values;
    }
    values.step()
}
