// The answers as the structs of `include/nesskettle.h`: numbers alone; outcome 0 is always "refused", and a field that an outcome does not speak
// of is 0. No call is made here, so a field in a wrong place is found in a short check.
#![tactic(auto)]

ghost use Rattle.std.specs.Prelude.{◌≡◌};
ghost use Rattle.std.proofs.Math.Option.{Option};
ghost use Rattle.answers.specs.Answers.{read_in, judge_in, length_in, find_in};
ghost use Rattle.answers.specs.Calls.{ReasoningCall};
ghost use Rattle.syntax.specs.Faults.{number_of};
ghost use Rattle.theory.specs.Refusals.{Answer};
ghost use Rattle.theory.specs.Operations as theory;
ghost use Rattle.accepting.specs.Calls.{solver_in};
ghost use Rattle.finding.specs.Calls.{allowed_in};
ghost use Rattle.uniting.specs.Calls.{written_in, sheet_told, sheet_number};
ghost use Rattle.layouts.specs.Layouts.{read_out, judge_out, laid, explain_out, write_out, solver_out, behind, merge_out, result_out, find_out, plain_out};

use accepting::{SolverAnswer, SolverResult};
use answers::{
    ExplainAnswer, FindAnswer, JudgeAnswer, PlainResult, ReadAnswer, Reason, Refusal, WriteAnswer,
};
use finding::allowed::{AllowedAnswer, FindResult};
use syntax::limits::Problem;
use uniting::merge::{MergeAnswer, WhichSheet};

#[repr(C)]
#[derive(Drop)]
pub struct ReadOut {
    pub outcome: u32,
    pub reason: u32,
    pub line: u64,
    pub column: u64,
    pub funs: u64,
    pub preds: u64,
    pub clauses: u64,
}

#[repr(C)]
#[derive(Drop)]
pub struct JudgeOut {
    pub outcome: u32,
    pub reason: u32,
    pub line: u64,
    pub column: u64,
}

#[repr(C)]
#[derive(Drop)]
pub struct ExplainOut {
    pub outcome: u32,
    pub reason: u32,
    pub line: u64,
    pub column: u64,
    pub clause: u64,
    pub count: u64,
    pub letters: [u8; Problem::MAX_LETTERS],
    pub values: [u8; Problem::MAX_LETTERS],
}

#[repr(C)]
#[derive(Drop)]
pub struct WriteOut {
    pub outcome: u32,
    pub reason: u32,
    pub line: u64,
    pub column: u64,
    pub length: u64,
}

#[repr(C)]
#[derive(Drop)]
pub struct FindOut {
    pub outcome: u32,
    pub reason: u32,
    pub line: u64,
    pub column: u64,
    pub size: u64,
    pub length: u64,
    pub choices: u64,
    pub settled: u32,
}

#[repr(C)]
#[derive(Drop)]
pub struct MergeOut {
    pub outcome: u32,
    pub reason: u32,
    pub line: u64,
    pub column: u64,
    pub length: u64,
    pub sheet: u32,
}

pub fn read_out(answer: ReadAnswer) -> ReadOut
    ensures { result ≡ read_out (read_in answer) }
{
    match answer {
        Ok(counts) => ReadOut {
            outcome: 1,
            reason: 0,
            line: 0,
            column: 0,
            funs: counts.functions as u64,
            preds: counts.predicates as u64,
            clauses: counts.clauses as u64,
        },
        Err(r) => ReadOut {
            outcome: 0,
            reason: reason_of(r),
            line: r.line as u64,
            column: r.column as u64,
            funs: 0,
            preds: 0,
            clauses: 0,
        },
    }
}

// The number of what is refused.
fn reason_of(r: Refusal) -> u32
    ensures { result ≡ number_of r.fault }
{
    u32::from(r.fault.number())
}

pub fn judge_out(answer: JudgeAnswer) -> JudgeOut
    ensures { result ≡ judge_out (judge_in answer) }
{
    match answer {
        Ok(true) => JudgeOut {
            outcome: 1,
            reason: 0,
            line: 0,
            column: 0,
        },
        Ok(false) => JudgeOut {
            outcome: 2,
            reason: 0,
            line: 0,
            column: 0,
        },
        Err(r) => JudgeOut {
            outcome: 0,
            reason: reason_of(r),
            line: r.line as u64,
            column: r.column as u64,
        },
    }
}

// Judge's struct, and the reason behind it, all zeros where there is none.
pub fn explain_out(answer: ExplainAnswer) -> ExplainOut
    ensures { (a : Answer (Option theory.Reason)) → ReasoningCall a answer → result ≡ explain_out a }
{
    let none = Reason {
        clause: 0,
        count: 0,
        letters: [0; Problem::MAX_LETTERS],
        values: [0; Problem::MAX_LETTERS],
    };
    match answer {
        Ok(Some(reason)) => reasoned(judge_out(Ok(false)), reason),
        Ok(None) => reasoned(judge_out(Ok(true)), none),
        Err(r) => reasoned(judge_out(Err(r)), none),
    }
}

fn reasoned(judged: JudgeOut, reason: Reason) -> ExplainOut
    ensures { result ≡ laid judged reason }
{
    let letters = reason.letters;
    let values = reason.values;
    ExplainOut {
        outcome: judged.outcome,
        reason: judged.reason,
        line: judged.line,
        column: judged.column,
        clause: reason.clause as u64,
        count: reason.count as u64,
        letters,
        values,
    }
}

pub fn write_out(answer: WriteAnswer) -> WriteOut
    ensures { result ≡ write_out (length_in answer) }
{
    match answer {
        Ok(n) => WriteOut {
            outcome: 1,
            reason: 0,
            line: 0,
            column: 0,
            length: n as u64,
        },
        Err(r) => WriteOut {
            outcome: 0,
            reason: reason_of(r),
            line: r.line as u64,
            column: r.column as u64,
            length: r.needed as u64,
        },
    }
}

pub fn find_out(answer: AllowedAnswer) -> FindOut
    ensures { result ≡ find_out (allowed_in answer) }
{
    match answer {
        Ok(FindResult::Found(size, n, choices)) => result_out(1, size, n as u64, choices, 0),
        Ok(FindResult::Nothing(mark, choices)) => result_out(2, 0, 0, choices, u32::from(mark)),
        Ok(FindResult::Stopped(size, choices)) => result_out(3, size, 0, choices, 0),
        Err(r) => FindOut {
            outcome: 0,
            reason: reason_of(r),
            line: r.line as u64,
            column: r.column as u64,
            size: 0,
            length: r.needed as u64,
            choices: 0,
            settled: 0,
        },
    }
}

// A result of Find.
fn result_out(outcome: u32, size: u64, length: u64, choices: u64, settled: u32) -> FindOut
    ensures { result ≡ result_out outcome size length choices settled }
{
    FindOut {
        outcome,
        reason: 0,
        line: 0,
        column: 0,
        size,
        length,
        choices,
        settled,
    }
}

// Find plain makes no choices of Find's kind.
pub fn plain_out(answer: FindAnswer) -> FindOut
    ensures { result ≡ plain_out (find_in answer) }
{
    match answer {
        Ok(PlainResult::Found(size, n)) => find_out(Ok(FindResult::Found(size, n, 0))),
        Ok(PlainResult::Nothing(settled)) => find_out(Ok(FindResult::Nothing(settled, 0))),
        Err(r) => find_out(Err(r)),
    }
}

pub fn solver_out(answer: SolverAnswer) -> WriteOut
    ensures { result ≡ solver_out (solver_in answer) }
{
    match answer {
        Ok(SolverResult::Case(n)) => WriteOut {
            outcome: 1,
            reason: 0,
            line: 0,
            column: 0,
            length: n as u64,
        },
        Ok(SolverResult::ClaimedNone) => WriteOut {
            outcome: 2,
            reason: 0,
            line: 0,
            column: 0,
            length: 0,
        },
        Err(r) => WriteOut {
            outcome: 0,
            reason: reason_of(r),
            line: r.line as u64,
            column: r.column as u64,
            length: r.needed as u64,
        },
    }
}

// Write's struct, and behind it which sheet a refusal points into: 1, 2, or 0 for none.
pub fn merge_out(answer: MergeAnswer) -> MergeOut
    ensures { result ≡ merge_out (length_in (written_in answer)) (sheet_told answer) }
{
    match answer {
        Ok(n) => sheeted(write_out(Ok(n)), None),
        Err(r) => sheeted(write_out(Err(r.refusal)), r.sheet),
    }
}

fn sheeted(written: WriteOut, sheet: Option<WhichSheet>) -> MergeOut
    ensures { result ≡ behind written (sheet_number sheet) }
{
    MergeOut {
        outcome: written.outcome,
        reason: written.reason,
        line: written.line,
        column: written.column,
        length: written.length,
        sheet: match sheet {
            None => 0,
            Some(WhichSheet::First) => 1,
            Some(WhichSheet::Second) => 2,
        },
    }
}
