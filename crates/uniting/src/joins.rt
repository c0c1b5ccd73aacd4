// Lines of one kind in both sheets made one: the first sheet's, then those of the second that the first has not.
ghost use Rattle.std.specs.Prelude.{◌≡◌, [], ◌∷◌, ◌+◌, ◌≤◌, length};
ghost use Rattle.sheet_merging.specs.Sheets.{section_text};
ghost use Rattle.sheet_merging.specs.Merging.{new_to};
ghost use Rattle.theory.specs.Lists as lists;
ghost use Rattle.theory.specs.Bytes.{decimal};
ghost use Rattle.theory.specs.SheetText.{line};
ghost use Rattle.text.specs.Put.{put};
ghost use Rattle.uniting.specs.Runs.{RunOf, run_lines};
ghost use Rattle.uniting.specs.Joins.{new_text, JoinOf, joined_lines, Measured};

use crate::runs::{Run, has_line};
use sheet_text::lines::{count_line_length, put_count_line};
use text::lines::line_end;
use text::writing::put_bytes;

// Lines: how many, and their bytes with each LF.
#[derive(Clone, Copy)]
pub struct Lines {
    pub count: usize,
    pub bytes: usize,
}

// Lines of both sheets, and what they are made one.
#[derive(Clone, Copy)]
pub struct Join {
    pub first: Run,
    pub second: Run,
    pub all: Lines,
}

pub fn join_runs(first: &[u8], own: Run, second: &[u8], other: Run) -> Join
    requires { RunOf first.now own × RunOf second.now other }
    ensures joined { JoinOf first.now second.now result }
    ensures first { result.first ≡ own }
    ensures second { result.second ≡ other }
{
    let added = new_lines(first, own, second, other);
    let count = own.count + added.count;
    let bytes = own.to - own.from + added.bytes;
    Join {
        first: own,
        second: other,
        all: Lines { count, bytes },
    }
}

// The second's lines that are new.
fn new_lines(first: &[u8], own: Run, second: &[u8], other: Run) -> Lines
    requires { RunOf first.now own × RunOf second.now other }
    ensures measured { Measured (new_to lists.same (run_lines first.now own) (run_lines second.now other)) result }
    ensures count { result.count ≤ other.count }
    ensures bytes { result.bytes ≤ length second.now }
{
    let mut lines = Lines { count: 0, bytes: 0 };
    let mut at = other.from;
    for _i in 0..other.count {
        let end = line_end(second, at);
        lines = with_new(lines, first, own, &second[at..end]);
        at = end + 1;
    }
    lines
}

// The lines with one more, if it is new.
fn with_new(lines: Lines, first: &[u8], own: Run, line: &[u8]) -> Lines
    requires { RunOf first.now own × ((lines.count ≤ 16384) × (lines.bytes + length line.now ≤ 16384)) }
    ensures count { result.count ≡ lines.count + length (new_to lists.same (run_lines first.now own) (line.now ∷ [])) }
    ensures bytes { result.bytes ≡ lines.bytes + length (new_text (run_lines first.now own) (line.now ∷ [])) }
    ensures fewer { result.count ≤ lines.count + 1 }
    ensures shorter { result.bytes ≤ lines.bytes + length line.now + 1 }
{
    if has_line(first, own, line) {
        return lines;
    }
    Lines {
        count: lines.count + 1,
        bytes: lines.bytes + line.len() + 1,
    }
}

// The length of a count and the lines counted.
pub fn section_length(key: &[u8], lines: Lines) -> usize
    requires { (length key.now ≤ 8) × ((lines.count ≤ 32768) × (lines.bytes ≤ 32768)) }
    ensures length { result ≡ length (line key.now (decimal lines.count)) + lines.bytes }
    ensures short { result ≤ 32800 }
{
    count_line_length(key, lines.count as u32) + lines.bytes
}

// A count and the lines counted.
pub fn put_section(
    out: &mut [u8],
    at: usize,
    key: &[u8],
    first: &[u8],
    second: &[u8],
    j: Join,
) -> usize
    requires { JoinOf first.now second.now j × (at + length (section_text key.now (joined_lines first.now second.now j)) ≤ length out.old) }
    ensures written { out.new ≡ put out.old at (section_text key.now (joined_lines first.now second.now j)) }
    ensures place { result ≡ at + length (section_text key.now (joined_lines first.now second.now j)) }
{
    let own = j.first;
    let other = j.second;
    let from = own.from;
    let to = own.to;
    let counted = put_count_line(out, at, key, j.all.count as u32);
    let copied = put_bytes(out, counted, &first[from..to]);
    put_new_lines(out, copied, first, own, second, other)
}

// The second's lines that are new.
fn put_new_lines(
    out: &mut [u8],
    at: usize,
    first: &[u8],
    own: Run,
    second: &[u8],
    other: Run,
) -> usize
    requires { RunOf first.now own × (RunOf second.now other × (at + length (new_text (run_lines first.now own) (run_lines second.now other)) ≤ length out.old)) }
    ensures written { out.new ≡ put out.old at (new_text (run_lines first.now own) (run_lines second.now other)) }
    ensures place { result ≡ at + length (new_text (run_lines first.now own) (run_lines second.now other)) }
{
    let mut e = at;
    let mut from = other.from;
    for _i in 0..other.count {
        let end = line_end(second, from);
        e = put_new(out, e, first, own, &second[from..end]);
        from = end + 1;
    }
    e
}

// The line with its LF, if it is new.
fn put_new(out: &mut [u8], at: usize, first: &[u8], own: Run, line: &[u8]) -> usize
    requires { RunOf first.now own × (at + length (new_text (run_lines first.now own) (line.now ∷ [])) ≤ length out.old) }
    ensures written { out.new ≡ put out.old at (new_text (run_lines first.now own) (line.now ∷ [])) }
    ensures place { result ≡ at + length (new_text (run_lines first.now own) (line.now ∷ [])) }
{
    if has_line(first, own, line) {
        return at;
    }
    let end = put_bytes(out, at, line);
    out[end] = b'\n';
    end + 1
}
