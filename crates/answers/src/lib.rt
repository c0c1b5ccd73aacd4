// What the operations answer: a result, or a numbered refusal. `specs/Answers` gives document 01's number and values for each of them.
#![tactic(auto)]

ghost use Rattle.std.specs.Prelude.{◌≡◌};
ghost use Rattle.theory.specs.Refusals as theory;
ghost use Rattle.syntax.specs.Faults.{number_of};
ghost use Rattle.answers.specs.Answers.{refusal_in};

use syntax::faults::Fault;
use syntax::limits::Problem;

// A refusal: what is refused, its line and column, each 0 where it is not named, and the needed length with 10 and 11, else 0.
#[derive(Clone, Copy)]
pub struct Refusal {
    pub fault: Fault,
    pub line: usize,
    pub column: usize,
    pub needed: usize,
}

// The numbers of functions, predicates and clauses.
#[derive(Clone, Copy)]
pub struct SheetCounts {
    pub functions: usize,
    pub predicates: usize,
    pub clauses: usize,
}

// Why a case is no model: a clause, counted from 1, fails where each of its letters, 'A' to 'H', stands for the value beside it, 1 to the size; 0 in the unused places.
#[derive(Clone, Copy)]
pub struct Reason {
    pub clause: usize,
    pub count: usize,
    pub letters: [u8; Problem::MAX_LETTERS],
    pub values: [u8; Problem::MAX_LETTERS],
}

// What Find plain finds: the size of the model and the length of its case, or none and the mark settled. Find's own has choices, and stands in `finding`.
#[derive(Clone, Copy)]
pub enum PlainResult {
    Found(u64, usize),
    Nothing(bool),
}

// Read.
pub type ReadAnswer = Result<SheetCounts, Refusal>;

// Judge: whether the case is a model.
pub type JudgeAnswer = Result<bool, Refusal>;

// Explain: why the case is no model, if it is none.
pub type ExplainAnswer = Result<Option<Reason>, Refusal>;

// Write, Read back, Setting, From TPTP, Renumber and Least form: the length of the text. Merge has an answer of its own, in `uniting`.
pub type WriteAnswer = Result<usize, Refusal>;

// Find plain.
pub type FindAnswer = Result<PlainResult, Refusal>;

// A refusal at a line, or at none: 0.
pub fn at_line(fault: Fault, line: usize) -> Refusal
    ensures { refusal_in result ≡ theory.at_line (number_of fault) line }
{
    Refusal {
        fault,
        line,
        column: 0,
        needed: 0,
    }
}

// A refusal at a line and a column.
pub fn at_place(fault: Fault, line: usize, column: usize) -> Refusal
    ensures { refusal_in result ≡ theory.at_place (number_of fault) (record { line = line; column = column }) }
{
    Refusal {
        fault,
        line,
        column,
        needed: 0,
    }
}

// A refusal that tells the needed length.
pub fn needing(fault: Fault, needed: usize) -> Refusal
    ensures { refusal_in result ≡ theory.needing (number_of fault) needed }
{
    Refusal {
        fault,
        line: 0,
        column: 0,
        needed,
    }
}
