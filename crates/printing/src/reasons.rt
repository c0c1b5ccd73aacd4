// What the explainer program prints for an answer.
ghost use Rattle.std.specs.Prelude.{◌≡◌, [], ◌∷◌, ◌+◌, ◌≤◌, length};
ghost use Rattle.std.proofs.Math.Option.{none};
ghost use Rattle.theory.specs.Refusals as refusals;
ghost use Rattle.theory.specs.Explainer as theory;
ghost use Rattle.text.specs.Put.{put};
ghost use Rattle.printing.specs.Reports.{Responds};
ghost use Rattle.printing.specs.Reasons.{Explicable, Printable};

use crate::report::{put_field, put_refusal};
use answers::{ExplainAnswer, Reason};
use text::writing::put_bytes;

// Yes, the reason, or the refusal.
pub fn put_explained(out: &mut [u8], answer: ExplainAnswer) -> usize
    requires { Explicable answer out.old }
    ensures { (s : Explicable answer out.old) → Responds (theory.explained_text s.result) result out.old out.new }
{
    match answer {
        Ok(None) => put_yes(out),
        Ok(Some(reason)) => put_reason(out, reason),
        Err(r) => put_refusal(out, r.fault.number(), r.line, r.column),
    }
}

// A model.
fn put_yes(out: &mut [u8]) -> usize
    requires { 128 ≤ length out.old }
    ensures { Responds (theory.explained_text (refusals.answer none)) result out.old out.new }
{
    put_bytes(out, 0, b"answer=yes\n")
}

// The clause, then each letter with its value.
fn put_reason(out: &mut [u8], reason: Reason) -> usize
    requires { (128 ≤ length out.old) × Printable reason }
    ensures { (s : Printable reason) → Responds (theory.reason_text s.reason) result out.old out.new }
{
    let at = put_field(out, 0, b"answer=no\nclause=", reason.clause as u32);
    out[at] = b'\n';
    put_letters(out, at + 1, reason)
}

// A line for each letter.
fn put_letters(out: &mut [u8], at: usize, reason: Reason) -> usize
    requires { (at + 32 ≤ length out.old) × Printable reason }
    ensures written { (s : Printable reason) → out.new ≡ put out.old at (theory.letter_lines s.reason.letters s.reason.values) }
    ensures place { (s : Printable reason) → result ≡ at + length (theory.letter_lines s.reason.letters s.reason.values) }
{
    let mut end = at;
    for i in 0..reason.count {
        end = put_letter(out, end, reason.letters[i], reason.values[i]);
    }
    end
}

// A letter, and its value as a digit.
fn put_letter(out: &mut [u8], at: usize, letter: u8, value: u8) -> usize
    requires { (at + 4 ≤ length out.old) × (value ≤ 9) }
    ensures written { out.new ≡ put out.old at (letter ∷ 61 ∷ (48 + value) ∷ 10 ∷ []) }
    ensures place { result ≡ at + 4 }
{
    let line = [letter, b'=', b'0' + value, b'\n'];
    put_bytes(out, at, &line)
}
