// The refusal of a case, with its column.
ghost use Rattle.std.specs.Prelude.{◌≡◌, ◌≤◌, drop};
ghost use Rattle.theory.specs.Lists.{or_zero};
ghost use Rattle.theory.specs.Refusals.{refused, at_line};
ghost use Rattle.theory.specs.CaseText.{size_of, read_case};
ghost use Rattle.theory.specs.LineForms.{good_bytes};
ghost use Rattle.theory.specs.DueLines.{size_on};
ghost use Rattle.theory.specs.Columns.{case_column, placed_case};
ghost use Rattle.syntax.specs.Signatures.{signature_in};
ghost use Rattle.clauses.specs.Names.{Readable};
ghost use Rattle.answers.specs.Answers.{refusal_in};
ghost use Rattle.columns.specs.Cases.{due_at_size};

use crate::cells::good_table;
use crate::good::{good_key, good_size, is_size};
use crate::lines::line_at;
use answers::{Refusal, at_place};
use syntax::faults::Fault;
use syntax::signature::Signature;
use syntax::size::DomainSize;

// The refusal that reading the case gave, at its column.
pub fn case_refusal(case: &[u8], sheet: &[u8], signature: Signature, line: usize) -> Refusal
    requires { Readable sheet.now signature × (read_case (signature_in sheet.now signature) case.now ≡ refused (at_line 12 line)) }
    ensures { placed_case (signature_in sheet.now signature) case.now ≡ refused (refusal_in result) }
{
    at_place(
        Fault::CaseLine,
        line,
        case_column(case, sheet, signature, line),
    )
}

fn case_column(case: &[u8], sheet: &[u8], signature: Signature, line: usize) -> usize
    requires { Readable sheet.now signature }
    ensures { result ≡ case_column (signature_in sheet.now signature) case.now line }
{
    if line == 0 {
        return 0;
    }
    let there = line_at(case, line - 1);
    let from = there.from;
    let to = there.to;
    let size = DomainSize(size_on(case));
    1 + good_in_case(&case[from..to], line - 1, sheet, signature, size)
}

// How many bytes of line l of a case are good, the first being line 0.
fn good_in_case(
    line: &[u8],
    l: usize,
    sheet: &[u8],
    signature: Signature,
    size: DomainSize,
) -> usize
    requires { Readable sheet.now signature × (size.0 ≤ 8) }
    ensures { result ≡ good_bytes (due_at_size size.0 (signature_in sheet.now signature) l) line.now }
{
    if l == 0 {
        return good_key(line, b"case=1");
    }
    if l == 1 {
        return good_size(line);
    }
    if signature.count <= l - 2 {
        return 0;
    }
    good_table(line, sheet, signature.symbols[l - 2], size)
}

// The size on a case's second line; 0 where there is none.
fn size_on(case: &[u8]) -> usize
    ensures size { result ≡ size_on case.now }
    ensures small { result ≤ 8 }
{
    let there = line_at(case, 1);
    let from = there.from;
    let to = there.to;
    size_behind(&case[from..to])
}

// The size behind the key; 0 where there is none.
fn size_behind(line: &[u8]) -> usize
    ensures size { result ≡ or_zero (size_of (drop 5 line.now)) }
    ensures small { result ≤ 8 }
{
    if line.len() != 6 {
        return 0;
    }
    let b = line[5];
    if !is_size(b) {
        return 0;
    }
    (b - DomainSize::ZERO_DIGIT) as usize
}
