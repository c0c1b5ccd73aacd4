// What is due on a line of a sheet, told by the counts that the sheet says.
ghost use Rattle.std.specs.Prelude.{◌≡◌, ◌≤◌, drop};
ghost use Rattle.theory.specs.Lists.{or_zero};
ghost use Rattle.theory.specs.Lines.{count_of};
ghost use Rattle.theory.specs.DueLines.{count_on, due_in_sheet};
ghost use Rattle.theory.specs.Columns.{key_length, is_declaration};
ghost use Rattle.columns.specs.Due.{form_of};

use crate::lines::line_at;
use text::numbers::count_of;

// The lines of a sheet in order, and the end after them.
#[derive(Clone, Copy)]
pub enum SheetLine {
    Heading,
    FunctionCount,
    Function,
    PredicateCount,
    Predicate,
    ClauseCount,
    Clause,
    End,
}

// What is due on line l, the first being line 0.
pub fn due_in_sheet(sheet: &[u8], l: usize) -> SheetLine
    ensures { form_of result ≡ due_in_sheet sheet.now l }
{
    if l == 0 {
        return SheetLine::Heading;
    }
    if l == 1 {
        return SheetLine::FunctionCount;
    }
    let predicates = 2 + count_on(sheet, b"funs=", 1);
    if l < predicates {
        return SheetLine::Function;
    }
    if l == predicates {
        return SheetLine::PredicateCount;
    }
    let clauses = predicates + 1 + count_on(sheet, b"preds=", predicates);
    if l < clauses {
        return SheetLine::Predicate;
    }
    if l == clauses {
        return SheetLine::ClauseCount;
    }
    if l <= clauses + count_on(sheet, b"clauses=", clauses) {
        return SheetLine::Clause;
    }
    SheetLine::End
}

// The count behind this key on the line after n lines; 0 where there is none.
fn count_on(sheet: &[u8], key: &[u8], n: usize) -> usize
    ensures count { result ≡ count_on key.now n sheet.now }
    ensures small { result ≤ 99 }
{
    let line = line_at(sheet, n);
    let from = line.from;
    let to = line.to;
    count_behind(&sheet[from..to], key.len())
}

// The count behind the first n bytes of a line; 0 where there is none.
fn count_behind(line: &[u8], n: usize) -> usize
    ensures count { result ≡ or_zero (count_of (drop n line.now)) }
    ensures small { result ≤ 99 }
{
    if line.len() < n {
        return 0;
    }
    count_of(&line[n..]).unwrap_or(0)
}

// The length of the key that is due.
pub fn key_length(due: SheetLine) -> usize
    ensures { result ≡ key_length (form_of due) }
{
    match due {
        SheetLine::Heading => 7,
        SheetLine::FunctionCount => 5,
        SheetLine::Function => 4,
        SheetLine::PredicateCount => 6,
        SheetLine::Predicate => 5,
        SheetLine::ClauseCount => 8,
        SheetLine::Clause => 7,
        SheetLine::End => 0,
    }
}

// Whether a symbol is to be declared.
pub fn is_declaration(due: SheetLine) -> bool
    ensures { result ≡ is_declaration (form_of due) }
{
    matches!(due, SheetLine::Function | SheetLine::Predicate)
}
