// Write: the clauses of a sheet at a size, as a text, plain or with named terms, with the constant clauses where they are asked for. The refusals in document 01's order, then the text.
#![tactic(auto)]

mod clause_text;

ghost use Rattle.std.specs.Prelude.{length};
ghost use Rattle.answers.specs.Calls.{WriteCall, WritingCall};
ghost use Rattle.problem.specs.Problems.{problem_in};
ghost use Rattle.writing.specs.Texts.{Sized, text_at};

use crate::clause_text::write_text;
use answers::{WriteAnswer, at_line};
use columns::opened::open_sheet;
use counts::{Counts, counts_at};
use syntax::faults::Fault;
use syntax::limits::Problem;
use syntax::size::DomainSize;

pub fn write_clauses(
    sheet: &[u8],
    size: u64,
    named: bool,
    symmetry: bool,
    output: &mut [u8],
) -> WriteAnswer
    ensures { WriteCall sheet.now size named symmetry result output.old output.new }
{
    let mut p = open_sheet(sheet, named)?;
    p.symmetry = symmetry;
    let Some(s) = DomainSize::checked(size as usize) else {
        return Err(at_line(Fault::Size, 0));
    };
    write_at(sheet, p, s, output)
}

// At a checked size.
fn write_at(sheet: &[u8], p: Problem, s: DomainSize, output: &mut [u8]) -> WriteAnswer
    requires { Sized sheet.now p s.0 }
    ensures { WritingCall (text_at p.symmetry (problem_in sheet.now p) s.0 (length output.old)) result output.old output.new }
{
    let c = counts_at(sheet, p, s);
    if Counts::MAX_INSTANCES < c.instances {
        return Err(at_line(Fault::Instances, 0));
    }
    write_text(sheet, p, s, output)
}
