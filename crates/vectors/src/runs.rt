// Each operation on its stored inputs.
use std::io;
use uniting::merge::WhichSheet;
use vector_lines::answered::{bytes, counted, explained, judged, plain, search, solved, text};
use vector_lines::inputs::{Input, whole_input_at};
use vector_lines::lending::{pattern_bytes, pattern_numbers};
use vector_lines::lines::{heading, say};

// The switches of Write and Find: the mode of named terms, and the constant clauses.
#[derive(Clone, Copy)]
pub struct Switches {
    pub named: bool,
    pub symmetry: bool,
}

pub const NONE: Switches = Switches {
    named: false,
    symmetry: false,
};

pub const NAMED: Switches = Switches {
    named: true,
    symmetry: false,
};

pub const SYMMETRY: Switches = Switches {
    named: false,
    symmetry: true,
};

pub const BOTH: Switches = Switches {
    named: true,
    symmetry: true,
};

// What a file's inputs are for; Read back has the mode of named terms alone.
#[derive(Clone, Copy)]
pub enum Operation {
    Read,
    Judge,
    Write(Switches),
    ReadBack(bool),
    Find(Switches),
    FromTptp,
    Explain,
    Setting,
    FromSolver,
    FindPlain,
    Merge,
    Renumber,
    LeastForm,
}

fn read(rt: &impl Print, sheet: &[u8]) -> io::Result<()> {
    let answer = nesskettle::read(sheet);
    counted(rt, answer)
}

fn judge(rt: &impl Print, sheet: &[u8], case: &[u8]) -> io::Result<()> {
    let answer = nesskettle::judge(sheet, case);
    judged(rt, answer)
}

fn write(
    rt: &impl Print,
    sheet: &[u8],
    size: u64,
    switches: Switches,
    output: &mut [u8],
) -> io::Result<()> {
    let answer = nesskettle::write(sheet, size, switches.named, switches.symmetry, output);
    text(rt, answer, output)
}

fn read_back(
    rt: &impl Print,
    sheet: &[u8],
    size: u64,
    named: bool,
    setting: &[u8],
    output: &mut [u8],
) -> io::Result<()> {
    let answer = nesskettle::read_back(sheet, size, named, setting, output);
    text(rt, answer, output)
}

fn find(
    rt: &impl Print,
    sheet: &[u8],
    x: Input,
    switches: Switches,
    work: &mut [u32],
    output: &mut [u8],
) -> io::Result<()> {
    let answer = nesskettle::find(
        sheet,
        x.low,
        x.high,
        switches.named,
        switches.symmetry,
        x.allowance,
        work,
        output,
    );
    search(rt, answer, work, output)
}

fn find_plain(
    rt: &impl Print,
    sheet: &[u8],
    low: u64,
    high: u64,
    output: &mut [u8],
) -> io::Result<()> {
    let answer = nesskettle::find_plain(sheet, low, high, output);
    plain(rt, answer, output)
}

fn from_tptp(rt: &impl Print, clauses: &[u8], output: &mut [u8]) -> io::Result<()> {
    let answer = nesskettle::from_tptp(clauses, output);
    text(rt, answer, output)
}

fn explain(rt: &impl Print, sheet: &[u8], case: &[u8]) -> io::Result<()> {
    let answer = nesskettle::explain(sheet, case);
    explained(rt, answer)
}

fn setting(rt: &impl Print, sheet: &[u8], case: &[u8], output: &mut [u8]) -> io::Result<()> {
    let answer = nesskettle::setting(sheet, case, output);
    bytes(rt, answer, output)
}

fn from_solver(
    rt: &impl Print,
    sheet: &[u8],
    size: u64,
    reply: &[u8],
    output: &mut [u8],
) -> io::Result<()> {
    let answer = nesskettle::from_solver(sheet, size, reply, output);
    solved(rt, answer, output)
}

fn merge(rt: &impl Print, first: &[u8], second: &[u8], output: &mut [u8]) -> io::Result<()> {
    match nesskettle::merge(first, second, output) {
        Ok(n) => text(rt, Ok(n), output),
        Err(r) => {
            pointed(rt, r.sheet)?;
            text(rt, Err(r.refusal), output)
        }
    }
}

// The sheet that a refusal points into, if it points into one.
fn pointed(rt: &impl Print, sheet: Option<WhichSheet>) -> io::Result<()> {
    match sheet {
        Some(WhichSheet::First) => say(rt, b" sheet 1"),
        Some(WhichSheet::Second) => say(rt, b" sheet 2"),
        None => Ok(()),
    }
}

// Beside the sheet stand as many bytes of a case as low says, and behind them the list.
fn renumber(
    rt: &impl Print,
    sheet: &[u8],
    low: u64,
    beside: &[u8],
    output: &mut [u8],
) -> io::Result<()> {
    let n = low as usize;
    if beside.len() < n {
        return say(rt, b" broken\n");
    }
    let answer = nesskettle::renumber(sheet, &beside[..n], &beside[n..], output);
    text(rt, answer, output)
}

fn least_form(rt: &impl Print, sheet: &[u8], case: &[u8], output: &mut [u8]) -> io::Result<()> {
    let answer = nesskettle::least_form(sheet, case, output);
    text(rt, answer, output)
}

// The sheet of an input, or the TPTP clauses, and what stands beside it.
#[derive(Clone, Copy)]
struct Texts<'a> {
    sheet: &'a [u8],
    beside: &'a [u8],
}

fn answer(
    rt: &impl Print,
    operation: Operation,
    texts: Texts<'_>,
    x: Input,
    work: &mut [u32],
    output: &mut [u8],
) -> io::Result<()> {
    pattern_numbers(work);
    pattern_bytes(output);
    let sheet = texts.sheet;
    let beside = texts.beside;
    match operation {
        Operation::Read => read(rt, sheet),
        Operation::Judge => judge(rt, sheet, beside),
        Operation::Write(switches) => write(rt, sheet, x.low, switches, output),
        Operation::ReadBack(named) => read_back(rt, sheet, x.low, named, beside, output),
        Operation::Find(switches) => find(rt, sheet, x, switches, work, output),
        Operation::FromTptp => from_tptp(rt, sheet, output),
        Operation::Explain => explain(rt, sheet, beside),
        Operation::Setting => setting(rt, sheet, beside, output),
        Operation::FromSolver => from_solver(rt, sheet, x.low, beside, output),
        Operation::FindPlain => find_plain(rt, sheet, x.low, x.high, output),
        Operation::Merge => merge(rt, sheet, beside, output),
        Operation::Renumber => renumber(rt, sheet, x.low, beside, output),
        Operation::LeastForm => least_form(rt, sheet, beside, output),
    }
}

// The answer with as much work and output lent as the input says.
fn lend(
    rt: &impl Print,
    operation: Operation,
    texts: Texts<'_>,
    x: Input,
    work: &mut [u32],
    output: &mut [u8],
) -> io::Result<()> {
    let numbers = x.work;
    let bytes = x.output;
    if work.len() < numbers {
        return say(rt, b" broken\n");
    }
    if output.len() < bytes {
        return say(rt, b" broken\n");
    }
    answer(
        rt,
        operation,
        texts,
        x,
        &mut work[..numbers],
        &mut output[..bytes],
    )
}

// The answers to all inputs of a file, counted from 1.
pub fn answer_all(
    rt: &impl Print,
    label: &[u8],
    operation: Operation,
    stored: &[u8],
    work: &mut [u32],
    output: &mut [u8],
) -> io::Result<()> {
    let mut at: usize = 0;
    let mut count: u64 = 0;
    while at < stored.len() {
        let Some(x) = whole_input_at(stored, at) else {
            return say(rt, b"broken\n");
        };
        let sheet = x.sheet;
        let beside = x.beside;
        let end = x.end;
        if end <= at {
            return say(rt, b"broken\n");
        }
        count = count.wrapping_add(1);
        heading(rt, label, count)?;
        let texts = Texts {
            sheet: &stored[sheet..beside],
            beside: &stored[beside..end],
        };
        lend(rt, operation, texts, x, work, output)?;
        at = end;
    }
    Ok(())
}
