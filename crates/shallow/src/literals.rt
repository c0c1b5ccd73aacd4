// The literals of a clause made shallow, left to right, with the lifted terms.
ghost use Rattle.std.specs.Prelude.{◌≡◌, ◌+◌, ◌<◌, ◌≤◌, get_or};
ghost use Rattle.theory.specs.Problem.{max_words, max_literals};
ghost use Rattle.shallow.specs.Flattenable.{Flattenable};
ghost use Rattle.shallow.specs.Shallow.{ClauseLifted, EqualityAt, EqualityMade, LiteralAt, LiteralMade, started, with_literal};
ghost use Rattle.syntax.specs.Codes.{letter_code};

use lifting::table::{Row, Table};
use lifting::terms::{Reading, lift_term, lift_terms};
use merging::merged;
use syntax::limits::Problem;
use syntax::variables::variables_of;
use syntax::words::ClauseWords;

// The three shallow shapes; a predicate's and a function's arguments stand beside.
#[derive(Clone, Copy)]
pub enum Shape {
    Predicate(u8),
    // the function, and the variable of its result
    FunctionResult(u8, u8),
    VariableEquality(u8, u8),
}

#[derive(Clone, Copy)]
pub struct Literal {
    pub sign: bool,
    pub shape: Shape,
    // as many as the largest arity, 0 where it has fewer
    pub arguments: [u8; Problem::MAX_ARITY],
}

impl Literal {
    // What stands where no literal does.
    pub const NONE: Literal = Literal {
        sign: false,
        shape: Shape::Predicate(0),
        arguments: [0; Problem::MAX_ARITY],
    };
}

// The literals made shallow so far, and the lifted terms.
#[derive(Clone, Copy)]
pub struct Lifting {
    pub literals: [Literal; Problem::MAX_LITERALS],
    pub count: usize,
    // the number of the clause's own variables
    pub owns: u8,
    pub table: Table,
    // the place after the words read
    pub next: usize,
}

impl Lifting {
    // k: the clause's own variables and the new ones
    pub fn variables(self) -> usize
        requires { self.table.count ≤ max_words }
        ensures { result ≡ self.owns + self.table.count }
    {
        self.owns as usize + self.table.count
    }

    fn with(mut self, literal: Literal, next: usize) -> Lifting
        requires { self.count < max_literals }
        ensures { result ≡ with_literal self literal self.table next }
    {
        let i = self.count;
        self.literals[i] = literal;
        self.count = i + 1;
        self.next = next;
        self
    }
}

// Steps 1 and 2 of a clause of at most MAX_LITERALS literals.
pub fn lift(c: ClauseWords, arities: &[u8]) -> Lifting
    requires { Flattenable arities.now c }
    ensures { (s : Flattenable arities.now c) → ClauseLifted s result }
{
    let m = merged(c);
    let variables = variables_of(m);
    let mut state = start(variables.count as u8);
    while state.next < m.count {
        let reading = Reading {
            words: &m.words,
            place: &variables.place,
            arities,
        };
        state = lift_literal(&reading, state);
    }
    state
}

// No literal read yet.
fn start(owns: u8) -> Lifting
    ensures { result ≡ started owns }
{
    Lifting {
        literals: [Literal::NONE; Problem::MAX_LITERALS],
        count: 0,
        owns,
        table: Table {
            rows: [Row {
                function: 0,
                arguments: [0; Problem::MAX_ARITY],
            }; Problem::MAX_TERMS],
            count: 0,
        },
        next: 0,
    }
}

fn lift_literal(reading: &Reading, mut state: Lifting) -> Lifting
    requires { LiteralAt reading.now state }
    ensures { (s : LiteralAt reading.now state) → LiteralMade s result }
{
    let at = state.next;
    let sign = reading.words[at] == ClauseWords::PLUS;
    let p = reading.words[at + 1];
    if p == ClauseWords::EQUALS {
        return lift_equality(reading, state, sign, at + 2);
    }
    let i = p as usize;
    let r = lift_terms(
        reading,
        state.owns,
        at + 2,
        reading.arities[i],
        &mut state.table,
    );
    let arguments = r.variables;
    let literal = Literal {
        sign,
        shape: Shape::Predicate(p),
        arguments,
    };
    state.with(literal, r.next)
}

// The equality of the two terms from `at` on, turned so that a function stands left.
fn lift_equality(reading: &Reading, mut state: Lifting, sign: bool, at: usize) -> Lifting
    requires { EqualityAt reading.now state sign at }
    ensures { (s : EqualityAt reading.now state sign at) → EqualityMade s result }
{
    let left = reading.words[at];
    if left < ClauseWords::LETTER {
        return lift_result(reading, state, sign, at);
    }
    let x = reading.place[(left - ClauseWords::LETTER) as usize];
    let second = at + 1;
    let right = reading.words[second];
    if ClauseWords::LETTER <= right {
        let y = reading.place[(right - ClauseWords::LETTER) as usize];
        let literal = Literal {
            sign,
            shape: Shape::VariableEquality(x, y),
            arguments: [0; Problem::MAX_ARITY],
        };
        return state.with(literal, second + 1);
    }
    let f = right as usize;
    let r = lift_terms(
        reading,
        state.owns,
        second + 1,
        reading.arities[f],
        &mut state.table,
    );
    let arguments = r.variables;
    let literal = Literal {
        sign,
        shape: Shape::FunctionResult(right, x),
        arguments,
    };
    state.with(literal, r.next)
}

// The equality of a function's term and another term, whose variable is the result.
fn lift_result(reading: &Reading, mut state: Lifting, sign: bool, at: usize) -> Lifting
    requires { EqualityAt reading.now state sign at × (get_or reading.now.words.now at 0 < letter_code) }
    ensures { (s : EqualityAt reading.now state sign at) → EqualityMade s result }
{
    let left = reading.words[at];
    let f = left as usize;
    let r = lift_terms(
        reading,
        state.owns,
        at + 1,
        reading.arities[f],
        &mut state.table,
    );
    let y = lift_term(reading, state.owns, r.next, &mut state.table);
    let arguments = r.variables;
    let literal = Literal {
        sign,
        shape: Shape::FunctionResult(left, y.variable),
        arguments,
    };
    state.with(literal, y.next)
}
