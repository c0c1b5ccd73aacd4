// Two sheets made one: the lines of each of the three kinds joined, measured, written.
ghost use Rattle.std.specs.Prelude.{◌≡◌, ◌≤◌, length};
ghost use Rattle.theory.specs.Bytes.{bytes};
ghost use Rattle.sheet_merging.specs.Sheets.{declaration_lines};
ghost use Rattle.text.specs.Put.{put};
ghost use Rattle.uniting.specs.Runs.{RunOf, run_lines};
ghost use Rattle.uniting.specs.United.{Sheeted, sheet_in, UnitedOf, JoinsOf, Moderate, measured_length, united_text};

use crate::joins::{Join, join_runs, put_section, section_length};
use crate::runs::{Run, run_of};
use syntax::limits::Problem;
use text::writing::put_bytes;

// The functions' lines, the predicates' lines and the clauses' lines of both.
#[derive(Clone, Copy)]
pub struct United {
    pub functions: Join,
    pub predicates: Join,
    pub clauses: Join,
}

pub fn unite(first: &[u8], p: Problem, second: &[u8], q: Problem) -> United
    requires { Sheeted first.now p × Sheeted second.now q }
    ensures { UnitedOf first.now p second.now q result }
{
    let functions = join_runs(
        first,
        function_lines(first, p),
        second,
        function_lines(second, q),
    );
    let predicates = join_runs(
        first,
        predicate_lines(first, p),
        second,
        predicate_lines(second, q),
    );
    let clauses = join_runs(
        first,
        clause_lines(first, p),
        second,
        clause_lines(second, q),
    );
    United {
        functions,
        predicates,
        clauses,
    }
}

// The lines of a sheet's functions: they stand after the heading and their count.
fn function_lines(text: &[u8], p: Problem) -> Run
    requires { Sheeted text.now p }
    ensures place { RunOf text.now result }
    ensures lines { run_lines text.now result ≡ declaration_lines (bytes "fun=") (sheet_in text.now p).functions }
{
    run_of(text, 2, p.functions)
}

// The lines of its predicates.
fn predicate_lines(text: &[u8], p: Problem) -> Run
    requires { Sheeted text.now p }
    ensures place { RunOf text.now result }
    ensures lines { run_lines text.now result ≡ declaration_lines (bytes "pred=") (sheet_in text.now p).predicates }
{
    run_of(text, 3 + p.functions, p.signature.count - p.functions)
}

// The lines of its clauses.
fn clause_lines(text: &[u8], p: Problem) -> Run
    requires { Sheeted text.now p }
    ensures place { RunOf text.now result }
    ensures lines { run_lines text.now result ≡ (sheet_in text.now p).lines }
{
    run_of(text, 4 + p.signature.count, p.count)
}

// The length of the sheet.
pub fn united_length(u: United) -> usize
    requires { Moderate u }
    ensures { result ≡ measured_length u }
{
    let functions = section_length(b"funs=", u.functions.all);
    let predicates = section_length(b"preds=", u.predicates.all);
    8 + functions + predicates + section_length(b"clauses=", u.clauses.all)
}

// The sheet, at the front of the output.
pub fn put_united(out: &mut [u8], first: &[u8], second: &[u8], u: United)
    requires { JoinsOf first.now second.now u × (length (united_text first.now second.now u) ≤ length out.old) }
    ensures { out.new ≡ put out.old 0 (united_text first.now second.now u) }
{
    let heading = put_bytes(out, 0, b"sheet=1\n");
    let functions = put_section(out, heading, b"funs=", first, second, u.functions);
    let predicates = put_section(out, functions, b"preds=", first, second, u.predicates);
    put_section(out, predicates, b"clauses=", first, second, u.clauses);
}
