// The explainer program's work: a sheet, then a case, and the answer's text.
ghost use Rattle.theory.specs.Explainer as theory;
ghost use Rattle.printing.specs.Reports.{Responds};

use crate::LONGEST_CASE;
use input_lines::case_starts::case_start;
use nesskettle::explain;
use printing::reasons::put_explained;
use syntax::limits::Problem;

// The largest sheet and one byte more, the longest case and one byte more: no answer depends on what comes after.
pub const EXPLAINER_BYTES: usize = Problem::MAX_BYTES + 1 + LONGEST_CASE + 1;

// More than the text of a reason with all letters, or of a refusal.
pub const EXPLAINED: usize = 128;

// Writes the output for an input to the front of the buffer, and answers its length.
pub fn explain_input(input: &[u8], out: &mut [u8; EXPLAINED]) -> usize
    ensures { Responds (theory.explainer input.now) result out.old out.new }
{
    let at = case_start(input);
    let answer = explain(&input[..at], &input[at..]);
    put_explained(out, answer)
}
