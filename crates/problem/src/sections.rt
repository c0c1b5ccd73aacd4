// The symbols of one kind: a count line, then so many lines.
ghost use Rattle.std.specs.Prelude.{◌+◌, ◌*◌, ◌^◌, ◌≤◌, ◌<◌, length};
ghost use Rattle.theory.specs.Problem.{max_symbols};
ghost use Rattle.syntax.specs.Signatures.{kind_of};
ghost use Rattle.clauses.specs.Names.{Readable};
ghost use Rattle.problem.specs.Sections.{lines_from, section_from, SectionFrom};

use crate::lines::count_line;
use crate::symbols::symbol_line;
use syntax::faults::Fault;
use syntax::limits::Problem;
use syntax::signature::Signature;

// The symbols after those before them, the place of the next line and its number.
#[derive(Clone, Copy)]
pub struct Section {
    pub signature: Signature,
    pub next: usize,
    pub line: usize,
}

// What is refused of a sheet, and the line; 0 where no line is named.
#[derive(Clone, Copy)]
pub struct SheetFault {
    pub fault: Fault,
    pub line: usize,
}

pub fn read_section(
    sheet: &[u8],
    at: usize,
    line: usize,
    counting: &[u8],
    key: &[u8],
    function: bool,
    before: Signature,
) -> Result<Section, SheetFault>
    requires { (at ≤ length sheet.now) × (Readable sheet.now before × ((before.count ≤ max_symbols) × (line + 13 < 2 ^ 64))) }
    ensures { SectionFrom sheet.now at line before 12 13 (section_from counting.now key.now (kind_of function)) result }
{
    match count_line(sheet, at, counting, Problem::MAX_OF_A_KIND) {
        Err(fault) => Err(SheetFault { fault, line }),
        Ok((n, next)) => symbol_lines(sheet, next, line + 1, key, function, n, before),
    }
}

fn symbol_lines(
    sheet: &[u8],
    at: usize,
    line: usize,
    key: &[u8],
    function: bool,
    n: usize,
    before: Signature,
) -> Result<Section, SheetFault>
    requires { (at ≤ length sheet.now) × (Readable sheet.now before × ((before.count + n ≤ 2 * max_symbols) × (line + n < 2 ^ 64))) }
    ensures { SectionFrom sheet.now at line before n n (lines_from n key.now (kind_of function)) result }
{
    let mut signature = before;
    let mut next = at;
    for i in 0..n {
        match symbol_line(sheet, next, key, function, signature) {
            Err(fault) => {
                return Err(SheetFault {
                    fault,
                    line: line + i,
                });
            }
            Ok((symbol, after)) => {
                signature = signature.with(symbol);
                next = after;
            }
        }
    }
    Ok(Section {
        signature,
        next,
        line: line + n,
    })
}
