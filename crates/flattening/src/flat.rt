// A flattened clause: t ≠ y for each lifted term t and its new variable y, then the shallow literals. The crate's two entries stand here.
ghost use Rattle.std.specs.Prelude.{◌≡◌, ◌+◌, ◌≤◌};
ghost use Rattle.theory.specs.Problem.{max_literals, max_variables};
ghost use Rattle.theory.specs.Flattening as theory;
ghost use Rattle.syntax.specs.Codes.{clause_in};
ghost use Rattle.shallow.specs.Placed.{placed};
ghost use Rattle.shallow.specs.Flattenable.{Flattenable};
ghost use Rattle.flattening.specs.Flat.{WithinLimits, flat_in};
ghost use Rattle.flattening.specs.Assembled.{Assemblable, Assembled, LiteralsPut, definition_at, empty_flat, shallow_at};

use shallow::literals::{Lifting, Literal, Shape, lift};
use syntax::limits::Problem;
use syntax::words::ClauseWords;

// The lifted terms' definitions and the literals.
#[derive(Clone, Copy)]
pub struct FlatClause {
    pub literals: [Literal; Problem::MAX_FLAT_LITERALS],
    pub count: usize,
    pub variables: usize,
}

// k: the number of variables of the flattened clause.
pub fn variable_count(c: ClauseWords, arities: &[u8]) -> usize
    requires { Flattenable arities.now c }
    ensures { (s : Flattenable arities.now c) → result ≡ theory.variable_count (theory.flatten (clause_in s.signature c)) }
{
    lift(c, arities).variables()
}

// The flattened clause of a clause within the limits, with places for variables.
pub fn flatten(c: ClauseWords, arities: &[u8]) -> FlatClause
    requires { WithinLimits arities.now c }
    ensures { (s : WithinLimits arities.now c) → flat_in s.clause.signature result ≡ placed (theory.flatten (clause_in s.clause.signature c)) }
{
    assembled(lift(c, arities))
}

// The definitions of the lifted terms, then the literals.
fn assembled(l: Lifting) -> FlatClause
    requires { Assemblable l }
    ensures { Assembled l result }
{
    let terms = l.table.count;
    let flat = empty(terms + l.count, l.variables());
    let defined = with_definitions(flat, l, 0);
    with_literals(defined, l, terms)
}

// The definitions of the lifted terms, put from number `at` on.
fn with_definitions(mut flat: FlatClause, l: Lifting, at: usize) -> FlatClause
    requires { Assemblable l × (at + l.table.count ≤ max_variables + max_literals) }
    ensures { LiteralsPut flat at l.table.count (definition_at l.table l.owns) result }
{
    let table = l.table;
    let owns = l.owns;
    for i in 0..table.count {
        let row = table.rows[i];
        let arguments = row.arguments;
        flat.literals[at + i] = Literal {
            sign: false,
            shape: Shape::FunctionResult(row.function, owns + i as u8),
            arguments,
        };
    }
    flat
}

// The literals, put from number `at` on.
fn with_literals(mut flat: FlatClause, l: Lifting, at: usize) -> FlatClause
    requires { Assemblable l × (at + l.count ≤ max_variables + max_literals) }
    ensures { LiteralsPut flat at l.count (shallow_at l) result }
{
    for j in 0..l.count {
        flat.literals[at + j] = l.literals[j];
    }
    flat
}

// So many literals and variables, no literal written yet.
fn empty(count: usize, variables: usize) -> FlatClause
    ensures { result ≡ empty_flat count variables }
{
    FlatClause {
        literals: [Literal::NONE; Problem::MAX_FLAT_LITERALS],
        count,
        variables,
    }
}
