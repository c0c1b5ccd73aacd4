// The literals of a flattened clause as linear forms in the values of the clause's variables.
// A form is `Problem::FORM` numbers: kind, base, x, a, y, b, z, c, w, d. Under the values v it is the literal with the code
// base + a·v[x] + b·v[y] + c·v[z] + d·v[w], or by its kind an equality of the variables at places x and y.
ghost use Rattle.std.specs.Prelude.{◌≡◌, ◌+◌, ◌≤◌, get_or, length};
ghost use Rattle.std.proofs.Math.Seq.{paste};
ghost use Rattle.flattening.specs.Flat.{flat_in};
ghost use Rattle.valuations.specs.Numbers.{max_prop_vars};
ghost use Rattle.forms.specs.LinearForms.{AllSafe, Groundable, Linear, LiteralOver, Means, Safe, argument_place, equality_form, linear_form, literal_over, rank_weight};

use flattening::flat::FlatClause;
use indices::PropVar;
use interpretation::vector::power;
use propagation::literals::literal;
use shallow::literals::{Literal, Shape};
use syntax::limits::Problem;
use syntax::size::DomainSize;
use valuations::numbering::Numbering;

// A form for each literal, one after the other: room for the most there may be, since no call allocates.
#[derive(Drop)]
pub struct Forms {
    pub forms: [u32; Problem::MAX_FORMS],
    pub count: usize,
}

pub fn forms_of(flat: FlatClause, arities: &[u8], n: Numbering, size: DomainSize) -> Forms
    requires { Groundable arities.now flat n size.0 }
    ensures count { (result.count ≡ flat.count) × ((result.count ≤ 26) × (length result.forms ≡ 260)) }
    ensures safe { AllSafe result.count result.forms }
    ensures linear { (o : Groundable arities.now flat n size.0) → Linear size.0 o.signature (flat_in o.signature flat) result.count result.forms }
{
    let mut forms = [0u32; Problem::MAX_FORMS];
    let literals = flat.literals;
    for i in 0..flat.count {
        let form = form_of(literals[i], arities, n, size);
        put(&mut forms, i * Problem::FORM, form);
    }
    Forms {
        forms,
        count: flat.count,
    }
}

// Writes a form from `at` on.
fn put(forms: &mut [u32], at: usize, form: [u32; Problem::FORM])
    requires { at + 10 ≤ length forms.old }
    ensures { forms.new ≡ paste forms.old at form 10 }
{
    forms[at..at + Problem::FORM].copy_from_slice(&form);
}

// The form of a literal.
fn form_of(literal: Literal, arities: &[u8], n: Numbering, size: DomainSize) -> [u32; Problem::FORM]
    requires { LiteralOver arities.now n size.0 literal }
    ensures safe { Safe result × (length result ≡ 10) }
    ensures means { (o : LiteralOver arities.now n size.0 literal) → Means size.0 o.signature o.variables (literal_over o) result }
{
    let positive = literal.sign;
    let shape = literal.shape;
    let arguments = literal.arguments;
    match shape {
        Shape::Predicate(p) => {
            let i = p as usize;
            let base = PropVar(n.bases[i]);
            linear_form(positive, base, 2, arities[i], arguments, 0, 0, size)
        }
        Shape::FunctionResult(f, result) => {
            let i = f as usize;
            let base = PropVar(n.bases[i]);
            let step = 2 * size.0 as u32;
            linear_form(positive, base, step, arities[i], arguments, result, 2, size)
        }
        Shape::VariableEquality(left, right) => equality_form(positive, left, right),
    }
}

// An equality of the variables at two places: kind 1, or 2 where it is negative.
fn equality_form(positive: bool, x: u8, y: u8) -> [u32; Problem::FORM]
    ensures { result ≡ equality_form positive x y }
{
    let x = x as u32;
    let y = y as u32;
    if positive {
        return [1, 0, x, 0, y, 0, 0, 0, 0, 0];
    }
    [2, 0, x, 0, y, 0, 0, 0, 0, 0]
}

// A symbol whose first variable is `base` at as many of the arguments as its arity; their rank counts `step` times and the value at w counts d times.
fn linear_form(
    positive: bool,
    base: PropVar,
    step: u32,
    arity: u8,
    arguments: [u8; Problem::MAX_ARITY],
    w: u8,
    d: u32,
    size: DomainSize,
) -> [u32; Problem::FORM]
    requires { (base.0 ≤ max_prop_vars) × ((step ≤ 16) × ((arity ≤ 3) × (size.0 ≤ 8))) }
    ensures { result ≡ linear_form positive base.0 step arity (get_or arguments 0 0) (get_or arguments 1 0) (get_or arguments 2 0) w d size.0 }
{
    [
        0,
        literal(base, positive),
        place_of(arity, 0, arguments[0]),
        step * weight_of(arity, 0, size),
        place_of(arity, 1, arguments[1]),
        step * weight_of(arity, 1, size),
        place_of(arity, 2, arguments[2]),
        step * weight_of(arity, 2, size),
        w as u32,
        d,
    ]
}

// The place of argument j, or 0 where there are fewer.
fn place_of(arity: u8, j: u8, x: u8) -> u32
    ensures { result ≡ argument_place arity j x }
{
    if j < arity {
        return x as u32;
    }
    0
}

// How often argument j counts in the rank.
fn weight_of(arity: u8, j: u8, size: DomainSize) -> u32
    requires { (arity ≤ 3) × (size.0 ≤ 8) }
    ensures weight { result ≡ rank_weight size.0 arity j }
    ensures small { result ≤ 512 }
{
    if j < arity {
        return power(size.0, (arity - j - 1) as usize) as u32;
    }
    0
}
