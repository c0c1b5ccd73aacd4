// Find: the least model at the smallest size that has one, plain or with named terms; told so, the least of those that obey the constant clauses.
#![tactic(auto)]

pub mod allowed;
pub mod first_values;
pub mod one_size;
pub mod sizes;

ghost use Rattle.std.specs.Prelude.{◌≡◌, List, ℕ, ◌+◌, ◌*◌, ◌≤◌, ◌<◌, ◌^◌, length};
ghost use Rattle.theory.specs.CaseText.{case_length};
ghost use Rattle.syntax.specs.Signatures.{signature_in, without_helpers};
ghost use Rattle.clauses.specs.Names.{Readable};
ghost use Rattle.problem.specs.Problems.{problem_in};
ghost use Rattle.valuations.specs.Numbers.{max_prop_vars};
ghost use Rattle.finding.specs.Calls.{FindCall};
ghost use Rattle.finding.specs.Ending.{Ends, ProblemShown, found_in};

use allowed::AllowedAnswer;
use answers::{at_line, needing};
use cases::writing::case_length;
use columns::opened::open_sheet;
use counts::{Counts, counts_at};
use ranges::range::checked_range;
use ranges::size_range::SizeRange;
use sizes::search_sizes;
use syntax::faults::Fault;
use syntax::limits::Problem;
use syntax::signature::Signature;
use syntax::size::DomainSize;
use valuations::numbering::numbering_of;

// The most choices that may be allowed.
pub const MAX_ALLOWANCE: u64 = 1000000;

pub fn find_model(
    sheet: &[u8],
    low: u64,
    high: u64,
    named: bool,
    symmetry: bool,
    allowance: u64,
    work: &mut [u32],
    output: &mut [u8],
) -> AllowedAnswer
    ensures { FindCall sheet.now low high named symmetry allowance result work.old work.new output.old output.new }
{
    let mut p = open_sheet(sheet, named)?;
    p.symmetry = symmetry;
    let Some(range) = checked_range(low, high) else {
        return Err(at_line(Fault::Size, 0));
    };
    find_in(sheet, p, range, allowance, work, output)
}

// At checked sizes: the other refusals, in order, then the search.
fn find_in(
    sheet: &[u8],
    p: Problem,
    range: SizeRange,
    allowance: u64,
    work: &mut [u32],
    output: &mut [u8],
) -> AllowedAnswer
    requires { ProblemShown sheet.now p }
    ensures { Ends (found_in p.symmetry (problem_in sheet.now p) range.low.0 range.high.0 allowance) result work.old work.new output.old output.new }
{
    if MAX_ALLOWANCE < allowance {
        return Err(at_line(Fault::Allowance, 0));
    }
    let c = counts_at(sheet, p, range.high);
    if Counts::MAX_INSTANCES < c.instances {
        return Err(at_line(Fault::Instances, 0));
    }
    let signature = p.signature;
    let n = numbering_of(signature, range.high);
    let needed = work_needed(c, n.count as usize);
    let length = shown_length(signature, range.high);
    if work.len() < needed {
        return Err(needing(Fault::WorkLength, needed));
    }
    if output.len() < length {
        return Err(needing(Fault::OutputLength, length));
    }
    search_sizes(sheet, p, range, allowance, work, output)
}

// The length of a case, which shows the declared symbols.
fn shown_length(signature: Signature, size: DomainSize) -> usize
    requires { (size.0 ≤ 8) × ((sheet : List ℕ) × (Readable sheet signature × (length sheet ≤ 16384))) }
    ensures { (sheet : List ℕ) → Readable sheet signature → result ≡ case_length size.0 (signature_in sheet (without_helpers signature)) }
{
    let shown = signature.declared();
    case_length(shown, size)
}

// W: the numbers of work that are needed for these counts and v variables.
fn work_needed(c: Counts, v: usize) -> usize
    requires { (c.instances < 2 ^ 42) × (c.literals < 2 ^ 42) × (v ≤ max_prop_vars) }
    ensures { result ≡ c.literals + 2 * c.instances + 8 * v + 16 }
{
    c.literals + 2 * c.instances + 8 * v + 16
}
