// What is printed of each kind of answer, and of what it leaves.
use crate::lines::{
    cleared, counts, failure, kept, length, made, nothing, refusal, rest, say, short, tell,
};
use accepting::{SolverAnswer, SolverResult};
use answers::{ExplainAnswer, FindAnswer, JudgeAnswer, PlainResult, ReadAnswer, WriteAnswer};
use finding::allowed::{AllowedAnswer, FindResult};
use std::io;

// What Read answers.
pub fn counted(rt: &impl Print, answer: ReadAnswer) -> io::Result<()> {
    match answer {
        Ok(c) => counts(rt, c)?,
        Err(r) => refusal(rt, r)?,
    }
    say(rt, b"\n")
}

// What Judge answers.
pub fn judged(rt: &impl Print, answer: JudgeAnswer) -> io::Result<()> {
    match answer {
        Ok(true) => say(rt, b" yes")?,
        Ok(false) => say(rt, b" no")?,
        Err(r) => refusal(rt, r)?,
    }
    say(rt, b"\n")
}

// What Explain answers.
pub fn explained(rt: &impl Print, answer: ExplainAnswer) -> io::Result<()> {
    match answer {
        Ok(None) => say(rt, b" yes")?,
        Ok(Some(reason)) => failure(rt, reason)?,
        Err(r) => refusal(rt, r)?,
    }
    say(rt, b"\n")
}

// What Write, Read back, From TPTP, Merge, Renumber and Least form answer and leave; From solver and Find plain too, where they write a case or are refused.
pub fn text(rt: &impl Print, answer: WriteAnswer, output: &[u8]) -> io::Result<()> {
    match answer {
        Ok(n) => {
            length(rt, output, n)?;
            say(rt, b"\n")?;
            short(rt, output, n)
        }
        Err(r) => {
            refusal(rt, r)?;
            rest(rt, output, 0)?;
            say(rt, b"\n")
        }
    }
}

// What Find answers and leaves.
pub fn search(
    rt: &impl Print,
    answer: AllowedAnswer,
    work: &[u32],
    output: &[u8],
) -> io::Result<()> {
    match answer {
        Ok(FindResult::Found(size, n, choices)) => {
            say(rt, b" found")?;
            tell(rt, size)?;
            made(rt, choices)?;
            length(rt, output, n)?;
            cleared(rt, work)?;
            say(rt, b"\n")?;
            short(rt, output, n)
        }
        Ok(FindResult::Nothing(settled, choices)) => {
            nothing(rt, settled)?;
            made(rt, choices)?;
            rest(rt, output, 0)?;
            cleared(rt, work)?;
            say(rt, b"\n")
        }
        Ok(FindResult::Stopped(size, choices)) => {
            say(rt, b" stopped")?;
            tell(rt, size)?;
            made(rt, choices)?;
            rest(rt, output, 0)?;
            cleared(rt, work)?;
            say(rt, b"\n")
        }
        Err(r) => {
            refusal(rt, r)?;
            rest(rt, output, 0)?;
            kept(rt, work)?;
            say(rt, b"\n")
        }
    }
}

// What Find plain answers and leaves.
pub fn plain(rt: &impl Print, answer: FindAnswer, output: &[u8]) -> io::Result<()> {
    match answer {
        Ok(PlainResult::Found(size, n)) => {
            say(rt, b" found")?;
            tell(rt, size)?;
            text(rt, Ok(n), output)
        }
        Ok(PlainResult::Nothing(settled)) => {
            nothing(rt, settled)?;
            rest(rt, output, 0)?;
            say(rt, b"\n")
        }
        Err(r) => text(rt, Err(r), output),
    }
}

// What Setting answers and leaves. The bytes of a setting are no characters: their sum tells them.
pub fn bytes(rt: &impl Print, answer: WriteAnswer, output: &[u8]) -> io::Result<()> {
    match answer {
        Ok(n) => length(rt, output, n)?,
        Err(r) => {
            refusal(rt, r)?;
            rest(rt, output, 0)?;
        }
    }
    say(rt, b"\n")
}

// What From solver answers and leaves.
pub fn solved(rt: &impl Print, answer: SolverAnswer, output: &[u8]) -> io::Result<()> {
    match answer {
        Ok(SolverResult::Case(n)) => text(rt, Ok(n), output),
        Ok(SolverResult::ClaimedNone) => {
            say(rt, b" claimed none")?;
            rest(rt, output, 0)?;
            say(rt, b"\n")
        }
        Err(r) => text(rt, Err(r), output),
    }
}
