// Runs the stored inputs of `data/` through the public calls and prints each answer as a line, with its text below where that is short (a setting is no text); `stdout` has what must come.
// What is lent is patterned before each call, and the line says whether what follows the answered length still has its pattern, and what is left in the work.
#![tactic(auto)]

mod runs;

use reading_input::read_full;
use runs::{BOTH, NAMED, NONE, Operation, SYMMETRY};
use std::io::Read;
use std::rt::Files;
use std::{fs, io};

// What is read of a file at most.
const STORED: usize = 300000;

// One file of stored inputs, all of one operation. The buffers stand apart from what is done with them: a proof of what is done then has no list of all their numbers in it.
fn run_file(rt: &(impl Files + Print), path: &str, operation: Operation) -> io::Result<()> {
    let mut file = fs::open(rt, path)?;
    let mut stored = [0u8; STORED];
    answer_file(rt, &mut file, path.as_bytes(), operation, &mut stored)
}

// What the file holds, answered.
fn answer_file(
    rt: &impl Print,
    file: &mut impl Read,
    label: &[u8],
    operation: Operation,
    stored: &mut [u8],
) -> io::Result<()> {
    let length = read_full(file, stored)?;
    answer_stored(rt, label, operation, &stored[..length])
}

// The same, with work and output to lend.
fn answer_stored(
    rt: &impl Print,
    label: &[u8],
    operation: Operation,
    stored: &[u8],
) -> io::Result<()> {
    let mut work = [0u32; 65536];
    let mut output = [0u8; 65536];
    runs::answer_all(rt, label, operation, stored, &mut work, &mut output)
}

// The calls with every switch off.
fn run_plain(rt: &(impl Files + Print)) -> io::Result<()> {
    run_file(rt, "read", Operation::Read)?;
    run_file(rt, "judge", Operation::Judge)?;
    run_file(rt, "write", Operation::Write(NONE))?;
    run_file(rt, "read_back", Operation::ReadBack(false))?;
    run_file(rt, "find", Operation::Find(NONE))?;
    run_file(rt, "from_tptp", Operation::FromTptp)?;
    run_file(rt, "explain", Operation::Explain)?;
    run_file(rt, "setting", Operation::Setting)?;
    run_file(rt, "from_solver", Operation::FromSolver)?;
    run_file(rt, "find_plain", Operation::FindPlain)
}

// The calls with one switch or both on.
fn run_switched(rt: &(impl Files + Print)) -> io::Result<()> {
    run_file(rt, "write_named", Operation::Write(NAMED))?;
    run_file(rt, "read_back_named", Operation::ReadBack(true))?;
    run_file(rt, "find_named", Operation::Find(NAMED))?;
    run_file(rt, "write_symmetry", Operation::Write(SYMMETRY))?;
    run_file(rt, "find_symmetry", Operation::Find(SYMMETRY))?;
    run_file(rt, "write_named_symmetry", Operation::Write(BOTH))?;
    run_file(rt, "find_named_symmetry", Operation::Find(BOTH))
}

fn main(rt: HostRuntime) -> io::Result<()> {
    run_plain(&rt)?;
    run_switched(&rt)?;
    run_file(&rt, "merge", Operation::Merge)?;
    run_file(&rt, "renumber", Operation::Renumber)?;
    run_file(&rt, "least_form", Operation::LeastForm)
}
