// The text of the clauses: measured, and written where it fits.
ghost use Rattle.std.specs.Prelude.{◌≡◌, ◌+◌, ◌≤◌, length};
ghost use Rattle.answers.specs.Calls.{WritingCall};
ghost use Rattle.text.specs.Put.{put};
ghost use Rattle.stream.specs.Consuming.{texts};
ghost use Rattle.valuations.specs.Numbers.{NumberingOf};
ghost use Rattle.syntax.specs.Signatures.{signature_in};
ghost use Rattle.problem.specs.Problems.{problem_in};
ghost use Rattle.writing.specs.Texts.{Writable, clauses_at, text_within};

use answers::{WriteAnswer, needing};
use encoding::all_clauses;
use stream::consumer::{Measuring, Writing};
use stream::dimacs::{header_length, put_header};
use syntax::faults::Fault;
use syntax::limits::Problem;
use syntax::size::DomainSize;
use valuations::numbering::{Numbering, numbering_of};

pub fn write_text(sheet: &[u8], p: Problem, s: DomainSize, output: &mut [u8]) -> WriteAnswer
    requires { Writable sheet.now p s.0 }
    ensures { WritingCall (text_within p.symmetry (problem_in sheet.now p) s.0 (length output.old)) result output.old output.new }
{
    let n = numbering_of(p.signature, s);
    let m = measured(sheet, p, n, s);
    let clauses = m.count as u32;
    let needed = header_length(n.count, clauses) + m.at;
    if output.len() < needed {
        return Err(needing(Fault::OutputLength, needed));
    }
    let at = put_header(output, 0, n.count, clauses);
    Ok(put_clauses(sheet, p, n, s, output, at))
}

// The number of the clauses, and the length of their lines.
fn measured(sheet: &[u8], p: Problem, n: Numbering, size: DomainSize) -> Measuring
    requires { Writable sheet.now p size.0 × NumberingOf (signature_in sheet.now p.signature) size.0 n }
    ensures count { result.count ≡ length (clauses_at p.symmetry (problem_in sheet.now p) size.0) }
    ensures length { result.at ≡ length (texts (clauses_at p.symmetry (problem_in sheet.now p) size.0)) }
{
    let mut lines = Measuring { at: 0, count: 0 };
    all_clauses(sheet, p, n, size, &mut lines);
    lines
}

// The clauses' lines from `at` on, and the place after them.
fn put_clauses(
    sheet: &[u8],
    p: Problem,
    n: Numbering,
    size: DomainSize,
    output: &mut [u8],
    at: usize,
) -> usize
    requires writable { Writable sheet.now p size.0 × NumberingOf (signature_in sheet.now p.signature) size.0 n }
    requires size_in_bounds { at + length (texts (clauses_at p.symmetry (problem_in sheet.now p) size.0)) ≤ length output.old }
    ensures written { output.new ≡ put output.old at (texts (clauses_at p.symmetry (problem_in sheet.now p) size.0)) }
    ensures place { result ≡ at + length (texts (clauses_at p.symmetry (problem_in sheet.now p) size.0)) }
{
    let mut lines = Writing {
        output,
        at,
        count: 0,
    };
    all_clauses(sheet, p, n, size, &mut lines);
    lines.at
}
