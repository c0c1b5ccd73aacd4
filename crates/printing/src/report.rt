// What the finder program prints for an answer; a refusal, and a key with its number, are printed here for both programs.
ghost use Rattle.std.specs.Prelude.{◌≡◌, ◌++◌, ◌+◌, ◌≤◌, ◌<◌, ◌^◌, length, take, drop};
ghost use Rattle.theory.specs.Bytes.{decimal};
ghost use Rattle.theory.specs.Program as theory;
ghost use Rattle.theory.specs.Refusals as refusals;
ghost use Rattle.theory.specs.Operations as operations;
ghost use Rattle.allowance.specs.AllowedFind as allowance;
ghost use Rattle.allowance.specs.FinderProgram.{printed_within};
ghost use Rattle.text.specs.Put.{put};
ghost use Rattle.printing.specs.Reports.{Reportable, Responds};

use finding::allowed::{AllowedAnswer, FindResult};
use text::writing::{put_bytes, put_number};

// The bytes of the line before a found case.
pub const OUTCOME: usize = 13;

// A found case stands after the outcome's line already.
pub fn put_result(out: &mut [u8], answer: AllowedAnswer) -> usize
    requires { Reportable answer out.old }
    ensures { (s : Reportable answer out.old) → Responds (printed_within s.result) result s.before out.new }
{
    match answer {
        Ok(FindResult::Found(_, count, _)) => put_found(out, count),
        Ok(FindResult::Nothing(settled, _)) => put_none(out, settled),
        Ok(FindResult::Stopped(size, _)) => put_stopped(out, size),
        Err(r) => put_refusal(out, r.fault.number(), r.line, r.column),
    }
}

// The outcome's line before the case.
fn put_found(out: &mut [u8], count: usize) -> usize
    requires { 13 + count ≤ length out.old }
    ensures { Responds (theory.printed (refusals.answer (operations.found 0 (take count (drop 13 out.old))))) result out.old out.new }
{
    put_bytes(out, 0, b"answer=found\n") + count
}

// None, and the mark settled.
fn put_none(out: &mut [u8], settled: bool) -> usize
    requires { 24915 ≤ length out.old }
    ensures { Responds (theory.printed (refusals.answer (operations.nothing settled))) result out.old out.new }
{
    let at = put_bytes(out, 0, b"answer=none\nsettled=");
    if settled {
        return put_bytes(out, at, b"yes\n");
    }
    put_bytes(out, at, b"no\n")
}

// Stopped, and at which size.
fn put_stopped(out: &mut [u8], size: u64) -> usize
    requires { (80 ≤ length out.old) × (size < 2 ^ 32) }
    ensures { Responds (printed_within (refusals.answer (allowance.stopped size 0))) result out.old out.new }
{
    let at = put_field(out, 0, b"answer=stopped\nsize=", size as u32);
    out[at] = 10;
    at + 1
}

// A refusal's number, line and column.
pub fn put_refusal(out: &mut [u8], number: u8, line: usize, column: usize) -> usize
    requires { (80 ≤ length out.old) × ((line < 2 ^ 32) × (column < 2 ^ 32)) }
    ensures { Responds (theory.refusal_text (refusals.at_place number (record { line = line; column = column }))) result out.old out.new }
{
    let a = put_field(out, 0, b"answer=refused\nreason=", u32::from(number));
    let b = put_field(out, a, b"\nline=", line as u32);
    let c = put_field(out, b, b"\ncolumn=", column as u32);
    out[c] = 10;
    c + 1
}

// A key and a number.
pub fn put_field(out: &mut [u8], at: usize, key: &[u8], n: u32) -> usize
    requires { at + length key.now + 10 ≤ length out.old }
    ensures written { out.new ≡ put out.old at (key.now ++ decimal n) }
    ensures place { result ≡ at + length (key.now ++ decimal n) }
{
    let from = put_bytes(out, at, key);
    put_number(out, from, n)
}
