// A whole sheet, line by line: the first faulty line decides.
ghost use Rattle.std.specs.Prelude.{◌≡◌, true, ◌≤◌, length, drop, IfOk};
ghost use Rattle.theory.specs.Problem.{max_symbols, max_clauses, read_problem};
ghost use Rattle.syntax.specs.Signatures.{signature_in};
ghost use Rattle.problem.specs.Problems.{handed_in, reading_of, HandedIn, Accepted};
ghost use Rattle.problem.specs.Stages.{ProblemRead, SymbolsRead, clause_lines_from, clauses_from, predicates_from, functions_from, read_lines_in, mode_of};
ghost use Rattle.problem.specs.Modes.{read_in};

use crate::clause_lines::clause_line;
use crate::lines::{count_line, key_line};
use crate::named_lines::named_terms;
use crate::sections::{SheetFault, read_section};
use shortening::helpers::with_helpers;
use syntax::faults::Fault;
use syntax::limits::Problem;
use syntax::signature::Signature;
use syntax::terms::FixedTerms;

// The problem, or what is refused and its line.
pub fn read_problem(sheet: &[u8]) -> Result<Problem, SheetFault>
    ensures read { reading_of sheet.now result ≡ read_problem sheet.now }
    ensures accepted { IfOk result (Accepted sheet.now) }
{
    read_lines(sheet, false)
}

// The problem in the mode of named terms: helpers behind its symbols, and their clauses in front of its own.
pub fn read_named(sheet: &[u8]) -> Result<Problem, SheetFault>
    ensures read { reading_of sheet.now result ≡ read_in true sheet.now }
    ensures accepted { IfOk result (Accepted sheet.now) }
{
    match read_lines(sheet, true) {
        Ok(p) => with_names(sheet, p),
        Err(fault) => Err(fault),
    }
}

// The problem with a helper for each term that is named; 21 where there are more than Problem::MAX_HELPERS.
fn with_names(sheet: &[u8], p: Problem) -> Result<Problem, SheetFault>
    requires { HandedIn true sheet.now p }
    ensures read { reading_of sheet.now result ≡ mode_of (handed_in sheet.now p) }
    ensures accepted { IfOk result (Accepted sheet.now) }
{
    let Some(terms) = named_terms(sheet, p) else {
        return Err(whole(Fault::Helpers));
    };
    let n = terms.count;
    let declared = p.signature;
    let clauses = p.clauses;
    Ok(Problem {
        signature: with_helpers(declared, n),
        functions: p.functions + n,
        clauses,
        count: p.count + n,
        terms,
        symmetry: false,
    })
}

// A sheet up to the end of its lines, with limit 7 of the mode where `named` says so; helpers are not told yet.
fn read_lines(sheet: &[u8], named: bool) -> Result<Problem, SheetFault>
    ensures { ProblemRead named sheet.now (read_lines_in named sheet.now) result }
{
    if Problem::MAX_BYTES < sheet.len() {
        return Err(whole(Fault::SheetLength));
    }
    let Some((from, end)) = key_line(sheet, 0, b"sheet=1") else {
        return Err(SheetFault {
            fault: Fault::SheetLine,
            line: 1,
        });
    };
    if from < end {
        return Err(SheetFault {
            fault: Fault::SheetLine,
            line: 1,
        });
    }
    functions_from(sheet, end + 1, named)
}

// A refusal that names no line.
fn whole(fault: Fault) -> SheetFault
    ensures { result ≡ record { fault = fault; line = 0 } }
{
    SheetFault { fault, line: 0 }
}

// The functions from line 2 on, then the rest.
fn functions_from(sheet: &[u8], at: usize, named: bool) -> Result<Problem, SheetFault>
    requires { at ≤ length sheet.now }
    ensures { ProblemRead named sheet.now (functions_from named 2 (drop at sheet.now)) result }
{
    let f = read_section(sheet, at, 2, b"funs=", b"fun=", true, Signature::empty())?;
    predicates_from(sheet, f.next, f.line, f.signature, named)
}

// The predicates after the functions, then the rest.
fn predicates_from(
    sheet: &[u8],
    at: usize,
    line: usize,
    before: Signature,
    named: bool,
) -> Result<Problem, SheetFault>
    requires { SymbolsRead sheet.now at line 15 before before.count × (before.count ≤ max_symbols) }
    ensures { ProblemRead named sheet.now (predicates_from named (signature_in sheet.now before) line (drop at sheet.now)) result }
{
    let p = read_section(sheet, at, line, b"preds=", b"pred=", false, before)?;
    clauses_from(sheet, p.next, p.line, p.signature, before.count, named)
}

// The clauses, and nothing after them.
fn clauses_from(
    sheet: &[u8],
    at: usize,
    line: usize,
    signature: Signature,
    functions: usize,
    named: bool,
) -> Result<Problem, SheetFault>
    requires { SymbolsRead sheet.now at line 28 signature functions }
    ensures { ProblemRead named sheet.now (clauses_from named (signature_in sheet.now signature) line (drop at sheet.now)) result }
{
    match count_line(sheet, at, b"clauses=", Problem::MAX_CLAUSES) {
        Err(fault) => Err(SheetFault { fault, line }),
        Ok((n, next)) => lines_from(sheet, next, line + 1, signature, functions, n, named),
    }
}

// So many clause lines, and nothing after them.
fn lines_from(
    sheet: &[u8],
    at: usize,
    line: usize,
    signature: Signature,
    functions: usize,
    n: usize,
    named: bool,
) -> Result<Problem, SheetFault>
    requires { SymbolsRead sheet.now at line 29 signature functions × (n ≤ max_clauses) }
    ensures { ProblemRead named sheet.now (clause_lines_from named n (signature_in sheet.now signature) line (drop at sheet.now)) result }
{
    let mut starts = [0; Problem::MAX_CLAUSES];
    let mut next = at;
    for i in 0..n {
        match clause_line(sheet, next, signature, named) {
            Err(fault) => {
                return Err(SheetFault {
                    fault,
                    line: line + i,
                });
            }
            Ok((from, after)) => {
                starts[i] = from;
                next = after;
            }
        }
    }
    if next < sheet.len() {
        return Err(SheetFault {
            fault: Fault::SheetLine,
            line: line + n,
        });
    }
    Ok(Problem {
        signature,
        functions,
        clauses: starts,
        count: n,
        terms: FixedTerms::none(),
        symmetry: false,
    })
}
