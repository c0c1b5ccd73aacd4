// A line that declares a symbol: its name, then / and one digit.
ghost use Rattle.std.specs.Prelude.{◌≡◌, ◌≤◌, ◌<◌, length};
ghost use Rattle.theory.specs.Problem.{is_name_byte, is_name};
ghost use Rattle.syntax.specs.Signatures.{kind_of, signature_in};
ghost use Rattle.clauses.specs.Names.{Readable};
ghost use Rattle.problem.specs.Symbols.{ValueDeclared, SymbolRead};

use crate::lines::key_line;
use clauses::names::find_name;
use syntax::faults::Fault;
use syntax::limits::Problem;
use syntax::signature::{Signature, Symbol};
use text::classes::is_lower;
use text::numbers::is_digit;

// A symbol and the place of the next line, or what is refused.
pub fn symbol_line(
    sheet: &[u8],
    at: usize,
    key: &[u8],
    function: bool,
    before: Signature,
) -> Result<(Symbol, usize), Fault>
    requires { (at ≤ length sheet.now) × Readable sheet.now before }
    ensures { SymbolRead sheet.now at key.now (kind_of function) (signature_in sheet.now before) result }
{
    let (from, end) = key_line(sheet, at, key).ok_or(Fault::SheetLine)?;
    symbol_at(sheet, from, end, function, before)
}

// The symbol that the value declares.
fn symbol_at(
    sheet: &[u8],
    from: usize,
    end: usize,
    function: bool,
    before: Signature,
) -> Result<(Symbol, usize), Fault>
    requires { (from ≤ end) × ((end < length sheet.now) × Readable sheet.now before) }
    ensures { ValueDeclared sheet.now from end (kind_of function) (signature_in sheet.now before) result }
{
    if end - from < 2 {
        return Err(Fault::SheetLine);
    }
    let slash = end - 2;
    if sheet[slash] != b'/' {
        return Err(Fault::SheetLine);
    }
    let digit = sheet[slash + 1];
    if !is_digit(digit) {
        return Err(Fault::SheetLine);
    }
    let arity = digit - b'0';
    if Problem::MAX_ARITY < arity as usize {
        return Err(Fault::CountOrArity);
    }
    if !is_name(&sheet[from..slash]) {
        return Err(Fault::Name);
    }
    if find_name(sheet, before, &sheet[from..slash]).is_some() {
        return Err(Fault::Name);
    }
    let symbol = Symbol {
        function,
        helper: false,
        arity,
        name: from,
        length: slash - from,
    };
    Ok((symbol, end + 1))
}

// A lower-case letter, then name bytes, MAX_NAME bytes at most.
pub fn is_name(name: &[u8]) -> bool
    ensures { result ≡ is_name name.now }
{
    if name.len() == 0 {
        return false;
    }
    if Problem::MAX_NAME < name.len() {
        return false;
    }
    if !is_lower(name[0]) {
        return false;
    }
    for i in 1..name.len() {
        if !is_name_byte(name[i]) {
            return false;
        }
    }
    true
}

// A lower-case letter, a digit or the low line.
fn is_name_byte(b: u8) -> bool
    ensures { result ≡ is_name_byte b }
{
    is_lower(b) || b.is_ascii_digit() || b == b'_'
}
