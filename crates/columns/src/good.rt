// The good bytes of a line: with them, something after them makes the line as laid out.
ghost use Rattle.std.specs.Prelude.{◌≡◌};
ghost use Rattle.theory.specs.Bytes.{bytes};
ghost use Rattle.theory.specs.LineForms.{no_bytes, count_digits, declaration, any_words, size_digit, is_size_byte, good_value, good_line, good_bytes};
ghost use Rattle.columns.specs.Due.{form_of};
ghost use Rattle.columns.specs.Good.{KeyMet};

use crate::due::SheetLine;
use text::numbers::is_digit;

// How many bytes of a sheet's line are good.
pub fn good_bytes(due: SheetLine, line: &[u8]) -> usize
    ensures { result ≡ good_bytes (form_of due) line.now }
{
    match due {
        SheetLine::Heading => good_key(line, b"sheet=1"),
        SheetLine::FunctionCount => good_count(line, b"funs="),
        SheetLine::Function => good_value(line, b"fun="),
        SheetLine::PredicateCount => good_count(line, b"preds="),
        SheetLine::Predicate => good_value(line, b"pred="),
        SheetLine::ClauseCount => good_count(line, b"clauses="),
        SheetLine::Clause => good_value(line, b"clause="),
        SheetLine::End => 0,
    }
}

// The line is its key alone.
pub fn good_key(line: &[u8], key: &[u8]) -> usize
    ensures { result ≡ good_line key.now no_bytes line.now }
{
    key_bytes(line, key)
}

// A count follows the key.
fn good_count(line: &[u8], key: &[u8]) -> usize
    ensures { result ≡ good_line key.now count_digits line.now }
{
    let n = key_bytes(line, key);
    if n < key.len() {
        return n;
    }
    n + count_digits(&line[n..])
}

// Any bytes may follow the key: what comes after them can make a declaration or a clause of them.
fn good_value(line: &[u8], key: &[u8]) -> usize
    ensures declared { result ≡ good_line key.now declaration line.now }
    ensures words { result ≡ good_line key.now any_words line.now }
{
    let n = key_bytes(line, key);
    if n < key.len() {
        return n;
    }
    line.len()
}

// A size follows the key.
pub fn good_size(line: &[u8]) -> usize
    ensures { result ≡ good_line (bytes "size=") size_digit line.now }
{
    let n = key_bytes(line, b"size=");
    if n < 5 {
        return n;
    }
    if line.len() == n {
        return n;
    }
    if !is_size(line[n]) {
        return n;
    }
    n + 1
}

// How many bytes of the line, from the first on, are those of the key.
pub fn key_bytes(line: &[u8], key: &[u8]) -> usize
    ensures { KeyMet line.now key.now result }
{
    line.iter().zip(key).take_while(|(b, k)| **b == **k).count()
}

// How many bytes of a value can begin a count: after 0 nothing, after another digit one digit.
fn count_digits(value: &[u8]) -> usize
    ensures { result ≡ good_value count_digits value.now }
{
    if value.len() == 0 {
        return 0;
    }
    if !is_digit(value[0]) {
        return 0;
    }
    if value[0] == b'0' {
        return 1;
    }
    if value.len() == 1 {
        return 1;
    }
    if !is_digit(value[1]) {
        return 1;
    }
    2
}

// The digit of a size.
pub fn is_size(b: u8) -> bool
    ensures { result ≡ is_size_byte b }
{
    b'1' <= b && b < b'9'
}
