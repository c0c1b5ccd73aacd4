// The programs' work: the whole output of each as a function of its input, the finder's here, the explainer's in `explaining`. The programs themselves (crates `finder`, `explainer`) only read and print.
#![tactic(auto)]

pub mod explaining;

ghost use Rattle.std.specs.Prelude.{◌≡◌, ◌≤◌, length, false, IfOk, IfErr};
ghost use Rattle.allowance.specs.AllowedFind.{find_within};
ghost use Rattle.allowance.specs.FinderProgram.{asked, printed_within, finder};
ghost use Rattle.printing.specs.Reports.{Responds};
ghost use Rattle.syntax.specs.declared.faults.Fault.TheVariants as fault;
ghost use Rattle.program.specs.Asked.{asked_in};

use answers::at_line;
use input_lines::allowances::allowance_line;
use input_lines::digits::digit_line;
use input_lines::switches::switch_line;
use nesskettle::find;
use printing::report::{OUTCOME, put_result};
use syntax::faults::Fault;
use syntax::limits::Problem;

// Four lines of at most 35 bytes together, the largest sheet, and one byte more: no answer depends on what comes after.
pub const MAX_INPUT: usize = 35 + Problem::MAX_BYTES + 1;

// The outcome's line, and the longest case.
pub const OUTPUT: usize = OUTCOME + LONGEST_CASE;

// Two lines of 14 bytes together, and for each symbol a name, `=`, and two bytes for each cell.
const LONGEST_CASE: usize = 14
    + Problem::MAX_DECLARED * (Problem::MAX_NAME + 1 + 2 * Problem::MAX_TABLE);

// The numbers of work.
const WORK: usize = 16000;

// What the input asks: the two sizes, whether the constant clauses are used, how many choices are allowed, and where the sheet starts.
#[derive(Clone, Copy)]
struct Question {
    low: u64,
    high: u64,
    symmetry: bool,
    allowance: u64,
    sheet: usize,
}

// Writes the output for an input to the front of the buffer, and answers its length.
pub fn respond(input: &[u8], out: &mut [u8; OUTPUT]) -> usize
    ensures { Responds (finder input.now) result out.old out.new }
{
    match read_question(input) {
        Ok(q) => search_sheet(&input[q.sheet..], q, out),
        Err(fault) => put_result(out, Err(at_line(fault, 0))),
    }
}

// The four lines, one by one; a line that is not so laid out is refused before the sheet is read.
fn read_question(input: &[u8]) -> Result<Question, Fault>
    ensures read { asked_in input.now result ≡ asked input.now }
    ensures within { IfOk result (λ q. q.sheet ≤ length input.now) }
    ensures refused { IfErr result (λ f. f ≡ fault.Size) }
{
    let (low, at) = digit_line(input, 0, b"low=").ok_or(Fault::Size)?;
    let (high, at) = digit_line(input, at, b"high=").ok_or(Fault::Size)?;
    let (symmetry, at) = switch_line(input, at).ok_or(Fault::Size)?;
    let (allowance, sheet) = allowance_line(input, at).ok_or(Fault::Size)?;
    Ok(Question {
        low,
        high,
        symmetry,
        allowance,
        sheet,
    })
}

// Searches the sheet, and prints what was found.
fn search_sheet(sheet: &[u8], q: Question, out: &mut [u8]) -> usize
    requires { length out.old ≡ 24915 }
    ensures { Responds (printed_within (find_within false q.symmetry sheet.now q.low q.high q.allowance 16000 24902)) result out.old out.new }
{
    let mut work = [0u32; WORK];
    let answer = find(
        sheet,
        q.low,
        q.high,
        false,
        q.symmetry,
        q.allowance,
        &mut work,
        &mut out[OUTCOME..],
    );
    put_result(out, answer)
}
