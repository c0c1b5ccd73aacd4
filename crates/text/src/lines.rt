// Reading: where a line and a word end, whether a line has a key.
ghost use Rattle.std.specs.Prelude.{◌≡◌, ◌≤◌, length};
ghost use Rattle.theory.specs.Lists as lists;
ghost use Rattle.text.specs.Lines.{ByteEnd, LineEnd, WordEnd, StartsWith};

// The place of the LF that ends the line from `at` on, or the text's length where none does.
pub fn line_end(text: &[u8], at: usize) -> usize
    requires { at ≤ length text.now }
    ensures { LineEnd text.now at result }
{
    byte_end(text, at, b'\n')
}

// The place of the space that ends the word from `at` on, or the line's length where none does.
pub fn word_end(line: &[u8], at: usize) -> usize
    requires { at ≤ length line.now }
    ensures { WordEnd line.now at result }
{
    byte_end(line, at, b' ')
}

// The place of the first such byte from `at` on, or the text's length where there is none.
fn byte_end(text: &[u8], at: usize, byte: u8) -> usize
    requires { at ≤ length text.now }
    ensures { ByteEnd text.now at byte result }
{
    let rest = &text[at..];
    at + rest.iter().position(|b| *b == byte).unwrap_or(rest.len())
}

// Whether the line begins with the key.
pub fn starts_with(line: &[u8], key: &[u8]) -> bool
    ensures { StartsWith line.now key.now result }
{
    line.starts_with(key)
}
