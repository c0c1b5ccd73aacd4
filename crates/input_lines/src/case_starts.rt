// Where the case starts in the explainer's input.
ghost use Rattle.std.specs.Prelude.{◌≡◌, true};
ghost use Rattle.theory.specs.Explainer as theory;

use text::lines::starts_with;

// How many bytes stand before the case.
pub fn case_start(input: &[u8]) -> usize
    ensures { result ≡ theory.case_start true input.now }
{
    let mut fresh = true;
    for i in 0..input.len() {
        if case_here(&input[i..], fresh) {
            return i;
        }
        fresh = input[i] == b'\n';
    }
    input.len()
}

// Whether the text begins with a case's first line, where a line starts.
fn case_here(text: &[u8], fresh: bool) -> bool
    ensures { result ≡ theory.case_here fresh text.now }
{
    fresh && starts_with(text, b"case=1\n")
}
