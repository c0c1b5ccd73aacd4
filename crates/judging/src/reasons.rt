// The reason that a failure is: the clause's own letters, and the value that each stands for.
ghost use Rattle.std.specs.Prelude.{◌≡◌, true, List, map, ◌+◌, ◌≤◌, suc, ℕ};
ghost use Rattle.theory.specs.Lists.{all, distinct};
ghost use Rattle.theory.specs.Operations.{max_size};
ghost use Rattle.theory.specs.Vectors.{AllBelow};
ghost use Rattle.syntax.specs.Variables.{Places, is_letter};
ghost use Rattle.interpretation.specs.Vectors.{digits_in};
ghost use Rattle.answers.specs.Answers.{eight, reason_bytes};
ghost use Rattle.judging.specs.Reasons.{FailureHeld, reason_at};

use crate::failures::Failure;
use answers::Reason;
use interpretation::vector::ArgumentVector;
use problem::clause_lines::clause_words;
use syntax::limits::Problem;
use syntax::variables::{Variables, variables_of};

// The clause, counted from 1, with its letters in order of first appearance.
pub fn reason_of(sheet: &[u8], p: Problem, f: Failure) -> Reason
    requires { FailureHeld sheet.now p f }
    ensures { result ≡ reason_bytes (reason_at sheet.now p f) }
{
    let k = f.clause;
    let values = f.values;
    let variables = variables_of(clause_words(sheet, p, k));
    Reason {
        clause: k + 1,
        count: variables.count,
        letters: letters_of(variables),
        values: values_of(values),
    }
}

// Each letter at its place, 'A' to 'H'; 0 in the unused places.
fn letters_of(variables: Variables) -> [u8; Problem::MAX_LETTERS]
    ensures { (xs : List ℕ) → all is_letter xs ≡ true → Places (distinct xs) variables → result ≡ eight (map (λ x. 65 + x) (distinct xs)) }
{
    let mut letters = [0; Problem::MAX_LETTERS];
    for x in 0..Problem::MAX_LETTERS {
        let i = variables.place[x] as usize;
        if i < Problem::MAX_LETTERS {
            letters[i] = b'A' + x as u8;
        }
    }
    letters
}

// Each value, counted from 1; 0 in the unused places.
fn values_of(values: ArgumentVector) -> [u8; Problem::MAX_LETTERS]
    requires { (values.count ≤ 8) × AllBelow max_size (digits_in values) }
    ensures { result ≡ eight (map suc (digits_in values)) }
{
    let mut shown = [0; Problem::MAX_LETTERS];
    for i in 0..values.count {
        shown[i] = values.digits[i] + 1;
    }
    shown
}
