// The third line of the input: yes or no to the constant clauses.
ghost use Rattle.std.specs.Prelude.{◌≤◌, length};
ghost use Rattle.theory.specs.Program.{switch_line};
ghost use Rattle.input_lines.specs.Lines.{LineRead};

use text::lines::starts_with;

// The switch, and where the next line starts.
pub fn switch_line(input: &[u8], at: usize) -> Option<(bool, usize)>
    requires { at ≤ length input.now }
    ensures { LineRead switch_line input.now at result }
{
    if starts_with(&input[at..], b"sym=yes\n") {
        return Some((true, at + 8));
    }
    if starts_with(&input[at..], b"sym=no\n") {
        return Some((false, at + 7));
    }
    None
}
