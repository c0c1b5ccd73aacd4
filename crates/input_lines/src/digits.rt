// The first two lines of the input: a key and one digit each.
ghost use Rattle.std.specs.Prelude.{◌≤◌, ◌<◌, length};
ghost use Rattle.theory.specs.Program.{digit_of, digit_line};
ghost use Rattle.input_lines.specs.Lines.{LineRead, ValueRead};

use text::lines::{line_end, starts_with};

// The digit, and where the next line starts.
pub fn digit_line(input: &[u8], at: usize, key: &[u8]) -> Option<(u64, usize)>
    requires { at ≤ length input.now }
    ensures { LineRead (digit_line key.now) input.now at result }
{
    let end = line_end(input, at);
    if end == input.len() {
        return None;
    }
    if !starts_with(&input[at..end], key) {
        return None;
    }
    digit_at(input, at + key.len(), end)
}

// The digit that the value is.
fn digit_at(input: &[u8], from: usize, end: usize) -> Option<(u64, usize)>
    requires { (from ≤ end) × (end < length input.now) }
    ensures { ValueRead digit_of input.now from end result }
{
    if end - from != 1 {
        return None;
    }
    let b = input[from];
    if b < b'0' {
        return None;
    }
    if b'9' < b {
        return None;
    }
    Some(((b - b'0') as u64, end + 1))
}
