// Reading a case: 12 at the first line that is not exactly as laid out.
ghost use Rattle.std.specs.Prelude.{◌≡◌, ◌+◌, ◌*◌, ◌≤◌, drop, length};
ghost use Rattle.theory.specs.Bytes.{bytes};
ghost use Rattle.theory.specs.Lines.{after_key};
ghost use Rattle.theory.specs.CaseText.{read_case};
ghost use Rattle.syntax.specs.Signatures.{max_cells, kind_of, signature_in, symbol_in};
ghost use Rattle.clauses.specs.Names.{Readable};
ghost use Rattle.cases.specs.Reading.{TableLineLent, TableRead, ValuesRead, case_in, case_of_tables, size_after};

use crate::values::{is_value, least_byte, separator, value_count};
use indices::Cell;
use interpretation::vector::power;
use syntax::signature::{Signature, Symbol};
use syntax::size::DomainSize;
use text::lines::{line_end, starts_with};

// `count` values, each after its separator, into the cells from `base` on.
fn read_values(
    bytes: &[u8],
    function: bool,
    size: DomainSize,
    count: usize,
    cells: &mut [u8],
    base: Cell,
) -> bool
    requires { (size.0 ≤ 8) × ((length bytes.now ≡ 2 * count) × (base.0 + count ≤ length cells.old)) }
    ensures { ValuesRead size.0 (kind_of function) count bytes.now base.0 cells.old cells.new result }
{
    let least = least_byte(function);
    let most = value_count(function, size);
    let from = base.0;
    for i in 0..count {
        if bytes[2 * i] != separator(i) {
            return false;
        }
        let b = bytes[2 * i + 1];
        if !is_value(b, least, most) {
            return false;
        }
        cells[from + i] = b - least;
    }
    true
}

// A symbol's line: its name, and its values into the cells from `base` on; the place of the next line, if this one is as
// laid out.
fn read_table(
    case: &[u8],
    at: usize,
    sheet: &[u8],
    symbol: Symbol,
    size: DomainSize,
    cells: &mut [u8],
    base: Cell,
) -> Option<usize>
    requires { TableLineLent size.0 sheet.now symbol case.now at base.0 cells.old }
    ensures { TableRead size.0 (symbol_in sheet.now symbol) case.now at base.0 cells.old cells.new result }
{
    let end = line_end(case, at);
    if end == case.len() {
        return None;
    }
    let name = symbol.name;
    let name_end = name + symbol.length;
    if !starts_with(&case[at..end], &sheet[name..name_end]) {
        return None;
    }
    let from = at + symbol.length;
    let count = power(size.0, symbol.arity as usize);
    if end - from != 2 * count {
        return None;
    }
    if !read_values(&case[from..end], symbol.function, size, count, cells, base) {
        return None;
    }
    Some(end + 1)
}

// The symbols' lines from `at` on, and nothing after them; or the first line that is not as laid out.
fn read_tables(
    case: &[u8],
    at: usize,
    sheet: &[u8],
    signature: Signature,
    size: DomainSize,
    cells: &mut [u8],
) -> Result<DomainSize, usize>
    requires { (at ≤ length case.now) × (Readable sheet.now signature × ((1 ≤ size.0) × ((size.0 ≤ 8) × (max_cells ≤ length cells.old)))) }
    ensures { case_in (signature_in sheet.now signature) result cells.new
        ≡ case_of_tables size.0 (signature_in sheet.now signature) (drop at case.now) }
{
    let mut next = at;
    let mut base: usize = 0;
    for i in 0..signature.count {
        let symbol = signature.symbols[i];
        next = read_table(case, next, sheet, symbol, size, cells, Cell(base)).ok_or(3 + i)?;
        base += power(size.0, symbol.arity as usize);
    }
    if next != case.len() {
        return Err(3 + signature.count);
    }
    Ok(size)
}

// The size of a line `size=d`.
fn size_of(line: &[u8]) -> Option<DomainSize>
    ensures { result ≡ size_after (after_key (bytes "size=") line.now) }
{
    if !starts_with(line, b"size=") {
        return None;
    }
    if line.len() != 6 {
        return None;
    }
    let digit = line[5].checked_sub(DomainSize::ZERO_DIGIT)?;
    DomainSize::checked(digit as usize)
}

// The size of a case text of a signature whose names stand in the sheet, its cells read; or the first line that is not as
// laid out.
pub fn read_case(
    case: &[u8],
    sheet: &[u8],
    signature: Signature,
    cells: &mut [u8],
) -> Result<DomainSize, usize>
    requires { Readable sheet.now signature × (max_cells ≤ length cells.old) }
    ensures { case_in (signature_in sheet.now signature) result cells.new ≡ read_case (signature_in sheet.now signature) case.now }
{
    let first = line_end(case, 0);
    if first == case.len() {
        return Err(1);
    }
    let heading: &[u8] = b"case=1";
    if &case[0..first] != heading {
        return Err(1);
    }
    let from = first + 1;
    let second = line_end(case, from);
    if second == case.len() {
        return Err(2);
    }
    let size = size_of(&case[from..second]).ok_or(2_usize)?;
    read_tables(case, second + 1, sheet, signature, size, cells)
}
