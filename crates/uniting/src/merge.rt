// Merge: the refusals in their order, then the sheet.
ghost use Rattle.std.specs.Prelude.{◌≡◌, ◌&&◌, leb, length};
ghost use Rattle.theory.specs.Problem.{max_bytes, max_symbols, max_clauses};
ghost use Rattle.answers.specs.Calls.{WritingCall};
ghost use Rattle.sheet_merging.specs.Merging.{merged_text};
ghost use Rattle.uniting.specs.United.{Sheeted};
ghost use Rattle.uniting.specs.Calls.{MergeCall, OneOpened, of_both};

use crate::agreement::agree;
use crate::united::{United, put_united, unite, united_length};
use answers::{Refusal, WriteAnswer, at_line, needing};
use columns::opened::open_sheet;
use syntax::faults::Fault;
use syntax::limits::Problem;

// One of the two sheets.
#[derive(Clone, Copy)]
pub enum WhichSheet {
    First,
    Second,
}

// A refusal, and the sheet that it points into, if one of its own numbers is told.
#[derive(Clone, Copy)]
pub struct MergeRefusal {
    pub refusal: Refusal,
    pub sheet: Option<WhichSheet>,
}

// What the two together say points into neither.
impl From<Refusal> for MergeRefusal {
    ghost from_gives = { λ r q. q ≡ of_both r };

    fn from(refusal: Refusal) -> MergeRefusal {
        MergeRefusal {
            refusal,
            sheet: None,
        }
    }
}

// The length of the sheet that the two are made.
pub type MergeAnswer = Result<usize, MergeRefusal>;

// The first sheet's refusals, the second's, then what the two together say.
pub fn merge_sheets(first: &[u8], second: &[u8], output: &mut [u8]) -> MergeAnswer
    ensures { MergeCall first.now second.now result output.old output.new }
{
    let p = open_one(first, WhichSheet::First)?;
    let q = open_one(second, WhichSheet::Second)?;
    let length = merge_problems(first, p, second, q, output)?;
    Ok(length)
}

// The sheet's problem, or its refusal, which points into it.
fn open_one(sheet: &[u8], which: WhichSheet) -> Result<Problem, MergeRefusal>
    ensures { OneOpened which sheet.now result }
{
    open_sheet(sheet, false).map_err(|refusal| MergeRefusal {
        refusal,
        sheet: Some(which),
    })
}

// 22, 23 and 11, or the sheet at the front of the output.
fn merge_problems(
    first: &[u8],
    p: Problem,
    second: &[u8],
    q: Problem,
    output: &mut [u8],
) -> WriteAnswer
    requires { Sheeted first.now p × Sheeted second.now q }
    ensures { WritingCall (merged_text first.now second.now (length output.old)) result output.old output.new }
{
    let agreed = agree(first, p.signature, second, q.signature);
    let u = unite(first, p, second, q);
    let length = united_length(u);
    let within = is_within(u, length);
    if !agreed {
        return Err(at_line(Fault::Disagreement, 0));
    }
    if !within {
        return Err(at_line(Fault::MergedLimits, 0));
    }
    if output.len() < length {
        return Err(needing(Fault::OutputLength, length));
    }
    put_united(output, first, second, u);
    Ok(length)
}

// No more symbols, clauses and bytes than a sheet may have.
fn is_within(u: United, length: usize) -> bool
    ensures { result ≡ (leb u.functions.all.count max_symbols && leb u.predicates.all.count max_symbols && leb u.clauses.all.count max_clauses && leb length max_bytes) }
{
    u.functions.all.count <= Problem::MAX_OF_A_KIND
        && u.predicates.all.count <= Problem::MAX_OF_A_KIND
        && u.clauses.all.count <= Problem::MAX_CLAUSES
        && length <= Problem::MAX_BYTES
}
