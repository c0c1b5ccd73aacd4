// Where a line of a text stands.
ghost use Rattle.columns.specs.Lines.{LineStart, LineAt};

use syntax::terms::Span;
use text::lines::line_end;

// The bytes of the line after n lines, without its LF; it is empty, at the text's end, where the text has no more lines.
pub fn line_at(text: &[u8], n: usize) -> Span
    ensures { LineAt text.now n result }
{
    let from = line_start(text, n);
    Span {
        from,
        to: line_end(text, from),
    }
}

// The place after n lines.
pub fn line_start(text: &[u8], n: usize) -> usize
    ensures { LineStart text.now n result }
{
    let mut at: usize = 0;
    for _i in 0..n {
        let end = line_end(text, at);
        if end == text.len() {
            return end;
        }
        at = end + 1;
    }
    at
}
