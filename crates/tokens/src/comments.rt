// A comment from /* on: where its */ ends.
ghost use Rattle.std.specs.Prelude.{◌≡◌, ◌&&◌, suc, ◌≤◌, ◌<◌, eqb, length, get_or, drop};
ghost use Rattle.theory.specs.Options.{told};
ghost use Rattle.tptp.specs.Tokens.{starts_with, to_comment_end};

use crate::runs::byte_is;

// Whether */ stands at a place.
fn closes(text: &[u8], at: usize) -> bool
    requires { at < length text.now }
    ensures { result ≡ (eqb (get_or text.now at 0) 42 && starts_with (eqb 47) (drop (suc at) text.now)) }
{
    text[at] == b'*' && byte_is(text, at + 1, b'/')
}

// How many bytes there are to the comment's end, or none where it does not end.
pub fn comment_rest(text: &[u8], at: usize) -> Option<usize>
    requires { at ≤ length text.now }
    ensures { told result ≡ to_comment_end (drop at text.now) }
{
    let rest = &text[at..];
    let place = (0..rest.len()).find(|i| closes(rest, *i));
    place.map(|n| n + 2)
}
