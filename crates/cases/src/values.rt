// The values on a symbol's line: each is a byte, with `=` before the first and a space before every other.
ghost use Rattle.std.specs.Prelude.{◌≡◌, ◌&&◌, ◌≤◌, ◌-◌, leb, ltb};
ghost use Rattle.theory.specs.Cells.{value_count};
ghost use Rattle.theory.specs.CaseText.{least_byte};
ghost use Rattle.syntax.specs.Signatures.{kind_of};
ghost use Rattle.cases.specs.Values.{separator_at};

use syntax::size::DomainSize;

// The byte before value i.
pub fn separator(i: usize) -> u8
    ensures { result ≡ separator_at i }
{
    if i == 0 { b'=' } else { b' ' }
}

// The byte of a cell's least value.
pub fn least_byte(function: bool) -> u8
    ensures { result ≡ least_byte (kind_of function) }
{
    if function { b'1' } else { b'0' }
}

// How many values a cell may have.
pub fn value_count(function: bool, size: DomainSize) -> u8
    requires { size.0 ≤ 8 }
    ensures { result ≡ value_count size.0 (kind_of function) }
{
    if function { size.0 as u8 } else { 2 }
}

// Whether the byte is one of `count` from `least` on.
pub fn is_value(b: u8, least: u8, count: u8) -> bool
    ensures { result ≡ (leb least b && ltb (b - least) count) }
{
    least <= b && b - least < count
}
