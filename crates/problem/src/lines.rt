// The lines of a sheet: a key and its value, a count.
ghost use Rattle.std.specs.Prelude.{◌≤◌, ◌<◌, length};
ghost use Rattle.problem.specs.Lines.{KeyRead, CountRead, ValueCounted};

use syntax::faults::Fault;
use text::lines::{line_end, starts_with};
use text::numbers::count_of;

// Where the value of a line with this key starts and where its LF stands; none where key or LF are not as laid out.
pub fn key_line(sheet: &[u8], at: usize, key: &[u8]) -> Option<(usize, usize)>
    requires { at ≤ length sheet.now }
    ensures { KeyRead sheet.now at key.now result }
{
    let end = line_end(sheet, at);
    if end == sheet.len() {
        return None;
    }
    if !starts_with(&sheet[at..end], key) {
        return None;
    }
    Some((at + key.len(), end))
}

// A count and the place of the next line, or what is refused.
pub fn count_line(
    sheet: &[u8],
    at: usize,
    key: &[u8],
    limit: usize,
) -> Result<(usize, usize), Fault>
    requires { at ≤ length sheet.now }
    ensures { CountRead sheet.now at key.now limit result }
{
    let (from, end) = key_line(sheet, at, key).ok_or(Fault::SheetLine)?;
    count_at(sheet, from, end, limit)
}

// The count that the value is.
fn count_at(sheet: &[u8], from: usize, end: usize, limit: usize) -> Result<(usize, usize), Fault>
    requires { (from ≤ end) × (end < length sheet.now) }
    ensures { ValueCounted sheet.now from end limit result }
{
    let n = count_of(&sheet[from..end]).ok_or(Fault::SheetLine)?;
    if limit < n {
        return Err(Fault::CountOrArity);
    }
    Ok((n, end + 1))
}
