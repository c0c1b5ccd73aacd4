// The fourth line of the input: how many choices are allowed.
ghost use Rattle.std.specs.Prelude.{◌≡◌, ◌≤◌, ◌<◌, length};
ghost use Rattle.theory.specs.Options.{told};
ghost use Rattle.allowance.specs.FinderProgram.{allowance_of, allowance_line};
ghost use Rattle.input_lines.specs.Lines.{LineRead, ValueRead};

use replies::numbers::number_within;
use text::lines::{line_end, starts_with};

// The largest number of seven digits.
const MOST: usize = 9_999_999;

// The number, and where the sheet starts.
pub fn allowance_line(input: &[u8], at: usize) -> Option<(u64, usize)>
    requires { at ≤ length input.now }
    ensures { LineRead allowance_line input.now at result }
{
    let end = line_end(input, at);
    if end == input.len() {
        return None;
    }
    if !starts_with(&input[at..end], b"allow=") {
        return None;
    }
    allowance_at(input, at + 6, end)
}

// The number that the value is.
fn allowance_at(input: &[u8], from: usize, end: usize) -> Option<(u64, usize)>
    requires { (from ≤ end) × (end < length input.now) }
    ensures { ValueRead allowance_of input.now from end result }
{
    let n = allowance_of(&input[from..end])?;
    Some((n as u64, end + 1))
}

// The number of one to seven digits without leading zero.
fn allowance_of(value: &[u8]) -> Option<usize>
    ensures { told result ≡ allowance_of value.now }
{
    let zero: &[u8] = b"0";
    if value == zero {
        return Some(0);
    }
    number_within(value, 0, MOST)
}
