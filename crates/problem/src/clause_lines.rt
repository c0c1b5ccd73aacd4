// The clause lines of a sheet.
ghost use Rattle.std.specs.Prelude.{◌≤◌, ◌<◌, length};
ghost use Rattle.text.specs.Lines.{part, LineEnd};
ghost use Rattle.syntax.specs.Signatures.{max_declared, signature_in};
ghost use Rattle.clauses.specs.Names.{Readable};
ghost use Rattle.problem.specs.Problems.{Accepted, WordsOf};
ghost use Rattle.problem.specs.ClausePlaces.{LineHeld, ClauseValueRead, ClauseLineRead};

use crate::lines::key_line;
use crate::named_lines::hold_named;
use crate::named_words::named_words;
use clauses::clause::{kept_codes, read_clause, read_words};
use syntax::faults::Fault;
use syntax::limits::Problem;
use syntax::signature::Signature;
use syntax::words::ClauseWords;
use text::lines::line_end;

// Where a clause stands and where the next line starts, or what is refused.
pub fn clause_line(
    sheet: &[u8],
    at: usize,
    signature: Signature,
    named: bool,
) -> Result<(usize, usize), Fault>
    requires { (at ≤ length sheet.now) × (Readable sheet.now signature × (signature.count ≤ max_declared)) }
    ensures { ClauseLineRead named sheet.now at (signature_in sheet.now signature) result }
{
    let (from, end) = key_line(sheet, at, b"clause=").ok_or(Fault::SheetLine)?;
    clause_at(sheet, from, end, signature, named)
}

// The clause that the value is.
fn clause_at(
    sheet: &[u8],
    from: usize,
    end: usize,
    signature: Signature,
    named: bool,
) -> Result<(usize, usize), Fault>
    requires { LineEnd sheet.now from end × ((end < length sheet.now) × (Readable sheet.now signature × (signature.count ≤ max_declared))) }
    ensures { ClauseValueRead named sheet.now from end (signature_in sheet.now signature) result }
{
    hold_line(sheet, from, end, signature, named)?;
    Ok((from, end + 1))
}

// Holds the value to the grammar and the limits: 5 to 7.
fn hold_line(
    sheet: &[u8],
    from: usize,
    end: usize,
    signature: Signature,
    named: bool,
) -> Result<(), Fault>
    requires { (from ≤ end) × ((end ≤ length sheet.now) × (Readable sheet.now signature × (signature.count ≤ max_declared))) }
    ensures { LineHeld named (signature_in sheet.now signature) (part sheet.now from end) result }
{
    if named {
        return hold_named(sheet, signature, from, end);
    }
    read_clause(sheet, signature, &sheet[from..end])?;
    Ok(())
}

// The words of clause k of a problem: it is within the limits, so they are not measured again.
pub fn clause_words(sheet: &[u8], p: Problem, k: usize) -> ClauseWords
    requires { Accepted sheet.now p × (k < p.count) }
    ensures { WordsOf sheet.now p k result }
{
    if p.terms.count != 0 {
        return named_words(sheet, p, k);
    }
    let from = p.clauses[k];
    let end = line_end(sheet, from);
    let signature = p.signature;
    let Some(words) = read_words(sheet, signature, &sheet[from..end]) else {
        // The line is a clause: all its words are known.
        unreachable!()
    };
    kept_codes(words)
}
