// Runs of lines of a sheet: where they stand, and whether a line is one of them.
ghost use Rattle.std.specs.Prelude.{◌≡◌, ◌+◌, ◌≤◌, length};
ghost use Rattle.theory.specs.Lists as lists;
ghost use Rattle.sheet_merging.specs.Sheets.{cut_lines};
ghost use Rattle.uniting.specs.Runs.{Lined, RunOf, run_lines};

use columns::lines::line_start;
use text::lines::line_end;

// Lines that stand one after the other: how many stand before them, how many they are, where the first starts and the place after the last one's LF.
#[derive(Clone, Copy)]
pub struct Run {
    pub line: usize,
    pub count: usize,
    pub from: usize,
    pub to: usize,
}

// So many lines after so many others.
pub fn run_of(text: &[u8], line: usize, count: usize) -> Run
    requires { Lined text.now × (line + count ≤ length (cut_lines text.now)) }
    ensures place { RunOf text.now result }
    ensures line { result.line ≡ line }
    ensures count { result.count ≡ count }
{
    let end = line + count;
    let from = line_start(text, line);
    let to = line_start(text, end);
    Run {
        line,
        count,
        from,
        to,
    }
}

// Whether one of the run's lines is this one.
pub fn has_line(text: &[u8], run: Run, line: &[u8]) -> bool
    requires { RunOf text.now run }
    ensures { result ≡ lists.any (lists.same line.now) (run_lines text.now run) }
{
    let mut at = run.from;
    for _i in 0..run.count {
        let end = line_end(text, at);
        if line == &text[at..end] {
            return true;
        }
        at = end + 1;
    }
    false
}
