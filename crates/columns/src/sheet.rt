// The refusal of a sheet, with its column.
ghost use Rattle.std.specs.Prelude.{◌≡◌, ◌≤◌, ◌<◌, length};
ghost use Rattle.theory.specs.Lines.{cut_words};
ghost use Rattle.theory.specs.Syntax as theory;
ghost use Rattle.theory.specs.Refusals.{refused, at_line};
ghost use Rattle.theory.specs.Problem.{read_problem};
ghost use Rattle.theory.specs.Columns.{line_column, sheet_column, placed_problem};
ghost use Rattle.naming.specs.NamedReading.{read_named, named_column};
ghost use Rattle.naming.specs.NamedOperations.{placed_in, read_problem_in};
ghost use Rattle.syntax.specs.Faults.{number_of};
ghost use Rattle.syntax.specs.Signatures.{signature_in};
ghost use Rattle.clauses.specs.Names.{Readable};
ghost use Rattle.answers.specs.Answers.{refusal_in};
ghost use Rattle.columns.specs.declared.due.SheetLine.TheVariants.{Clause};
ghost use Rattle.columns.specs.Due.{form_of};
ghost use Rattle.theory.specs.Options.{told};
ghost use Rattle.columns.specs.Words.{start_from, StartWithin};
ghost use Rattle.columns.specs.Sheets.{ByteRefused, LineRefused, ClauseRefused, SymbolsFound, KnownFrom6, WordsRefused, word_fault, wordless};

use crate::due::{SheetLine, due_in_sheet, is_declaration, key_length};
use crate::good::good_bytes;
use crate::lines::{line_at, line_start};
use crate::words::{first_misplaced, first_over, first_unknown};
use answers::{Refusal, at_place};
use problem::sections::{SheetFault, read_section};
use syntax::faults::Fault;
use syntax::signature::Signature;

// The refusal that reading the sheet gave, at its column.
fn plain_refusal(sheet: &[u8], f: SheetFault) -> Refusal
    requires { read_problem sheet.now ≡ refused (at_line (number_of f.fault) f.line) }
    ensures { placed_problem sheet.now ≡ refused (refusal_in result) }
{
    at_place(f.fault, f.line, sheet_column(sheet, f.fault, f.line))
}

// The refusal that reading the sheet in a mode gave, at its column.
pub fn sheet_refusal(sheet: &[u8], named: bool, f: SheetFault) -> Refusal
    requires { read_problem_in named sheet.now ≡ refused (at_line (number_of f.fault) f.line) }
    ensures { placed_in named sheet.now ≡ refused (refusal_in result) }
{
    if named {
        return at_place(f.fault, f.line, named_column(sheet, f.fault, f.line));
    }
    plain_refusal(sheet, f)
}

// With named terms limits of a clause tell no word.
fn named_column(sheet: &[u8], fault: Fault, line: usize) -> usize
    requires { read_named sheet.now ≡ refused (at_line (number_of fault) line) }
    ensures { result ≡ named_column sheet.now (number_of fault) line }
{
    if line == 0 {
        return 0;
    }
    match fault {
        Fault::ClauseLimits => 1,
        _ => sheet_column(sheet, fault, line),
    }
}

fn sheet_column(sheet: &[u8], fault: Fault, line: usize) -> usize
    requires { LineRefused sheet.now (number_of fault) line }
    ensures { result ≡ sheet_column sheet.now (number_of fault) line }
{
    if line == 0 {
        return 0;
    }
    let there = line_at(sheet, line - 1);
    let from = there.from;
    let to = there.to;
    match fault {
        Fault::Word | Fault::Clause | Fault::ClauseLimits => {
            let signature = symbols_again(sheet);
            word_column(sheet, signature, fault, &sheet[from..to])
        }
        _ => {
            let due = due_in_sheet(sheet, line - 1);
            byte_column(due, fault, &sheet[from..to])
        }
    }
}

// A count or an arity and a name tell where they stand, a line that is not as laid out the byte after the good ones.
fn byte_column(due: SheetLine, fault: Fault, line: &[u8]) -> usize
    requires { ByteRefused due (number_of fault) line.now }
    ensures { (g : theory.Signature) → result ≡ line_column g (form_of due) line.now (number_of fault) }
{
    match fault {
        Fault::CountOrArity => number_column(due, line),
        Fault::Name => 1 + key_length(due),
        _ => 1 + good_bytes(due, line),
    }
}

// The arity of a symbol that is declared, or else a count, which stands behind its key.
fn number_column(due: SheetLine, line: &[u8]) -> usize
    requires { ByteRefused due 3 line.now }
    ensures { (g : theory.Signature) → result ≡ line_column g (form_of due) line.now 3 }
{
    if is_declaration(due) {
        return arity_column(line.len());
    }
    1 + key_length(due)
}

// The arity stands behind the `/`, the last byte but one.
fn arity_column(length: usize) -> usize
    requires { 2 ≤ length }
    ensures { result ≡ length }
{
    let slash = length - 2;
    1 + (slash + 1)
}

// The symbols of a sheet that is refused for a clause: its sections can be read.
fn symbols_again(sheet: &[u8]) -> Signature
    requires { ClauseRefused sheet.now }
    ensures { SymbolsFound sheet.now result }
{
    let at = line_start(sheet, 1);
    let Ok(f) = read_section(sheet, at, 2, b"funs=", b"fun=", true, Signature::empty()) else {
        unreachable!()
    };
    let Ok(p) = read_section(
        sheet,
        f.next,
        f.line,
        b"preds=",
        b"pred=",
        false,
        f.signature,
    ) else {
        unreachable!()
    };
    p.signature
}

// What is refused of a clause tells the word at fault.
fn word_column(sheet: &[u8], signature: Signature, fault: Fault, line: &[u8]) -> usize
    requires { Readable sheet.now signature × WordsRefused (signature_in sheet.now signature) (number_of fault) line.now }
    ensures { result ≡ line_column (signature_in sheet.now signature) (form_of Clause) line.now (number_of fault) }
{
    let key = key_length(SheetLine::Clause);
    if line.len() <= key {
        return wordless_column(fault, line.len());
    }
    match word_place(sheet, signature, fault, &line[key..]) {
        Some(start) => 1 + key + start,
        None => wordless_column(fault, line.len()),
    }
}

// The word at fault, behind the key.
fn word_place(sheet: &[u8], signature: Signature, fault: Fault, value: &[u8]) -> Option<usize>
    requires { Readable sheet.now signature × ((5 ≤ number_of fault) × KnownFrom6 (signature_in sheet.now signature) (number_of fault) (cut_words value.now)) }
    ensures start { told result ≡ start_from 0 (cut_words value.now) (word_fault (signature_in sheet.now signature) (number_of fault) (cut_words value.now)) }
    ensures within { StartWithin (length value.now) result }
{
    match fault {
        Fault::Word => first_unknown(sheet, signature, value),
        Fault::Clause => first_misplaced(sheet, signature, value),
        _ => first_over(value),
    }
}

// Where no word is at fault, a clause that is none wants something at the line's end, and of the limits only the variables' is passed.
fn wordless_column(fault: Fault, length: usize) -> usize
    requires { length < 9223372036854775808 }
    ensures { result ≡ wordless (number_of fault) length }
{
    match fault {
        Fault::Clause => 1 + length,
        _ => 1,
    }
}
