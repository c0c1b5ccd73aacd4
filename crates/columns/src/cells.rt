// The good bytes of a symbol's line in a case: its name, `=`, and its values with one space between.
ghost use Rattle.std.specs.Prelude.{◌≡◌, [], ◌∷◌, ◌+◌, ◌≤◌, length};
ghost use Rattle.theory.specs.CaseText.{equals_sign};
ghost use Rattle.theory.specs.LineForms.{cell_values, good_value, good_line, good_bytes};
ghost use Rattle.theory.specs.DueLines.{table_form};
ghost use Rattle.syntax.specs.Signatures.{kind_of, symbol_in};

use crate::good::key_bytes;
use cases::values::{is_value, least_byte, value_count};
use interpretation::vector::power;
use syntax::signature::Symbol;
use syntax::size::DomainSize;

pub fn good_table(line: &[u8], sheet: &[u8], symbol: Symbol, size: DomainSize) -> usize
    requires { (symbol.name + symbol.length ≤ length sheet.now) × ((symbol.arity ≤ 3) × (size.0 ≤ 8)) }
    ensures { result ≡ good_bytes (table_form size.0 (symbol_in sheet.now symbol)) line.now }
{
    let name = symbol.name;
    let name_end = name + symbol.length;
    let n = key_bytes(line, &sheet[name..name_end]);
    if n < symbol.length {
        return n;
    }
    let count = power(size.0, symbol.arity as usize);
    n + good_values(&line[n..], symbol.function, size, count)
}

// The bytes behind the name.
fn good_values(bytes: &[u8], function: bool, size: DomainSize, count: usize) -> usize
    requires { size.0 ≤ 8 }
    ensures { result ≡ good_line (equals_sign ∷ []) (cell_values size.0 (kind_of function) count) bytes.now }
{
    if bytes.len() == 0 {
        return 0;
    }
    if bytes[0] != b'=' {
        return 0;
    }
    1 + good_cells(&bytes[1..], function, size, count)
}

// The bytes behind `=`: `count` values.
fn good_cells(bytes: &[u8], function: bool, size: DomainSize, count: usize) -> usize
    requires { size.0 ≤ 8 }
    ensures { result ≡ good_value (cell_values size.0 (kind_of function) count) bytes.now }
{
    let least = least_byte(function);
    let most = value_count(function, size);
    for i in 0..count {
        if bytes.len() <= 2 * i {
            return 2 * i;
        }
        if !is_value(bytes[2 * i], least, most) {
            return 2 * i;
        }
        if i + 1 == count {
            return 2 * i + 1;
        }
        if bytes.len() == 2 * i + 1 {
            return 2 * i + 1;
        }
        if bytes[2 * i + 1] != b' ' {
            return 2 * i + 1;
        }
    }
    2 * count
}
