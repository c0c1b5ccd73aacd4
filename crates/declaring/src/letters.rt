// The variables of one clause in order of first appearance: the first becomes A, the next B.
ghost use Rattle.std.specs.Prelude.{◌≡◌, List, [], ◌∷◌, ◌++◌, ℕ, ◌+◌, ◌≤◌, ◌<◌, length, take};
ghost use Rattle.theory.specs.Lists as lists;
ghost use Rattle.theory.specs.Lists.{place_that};
ghost use Rattle.text.specs.Lines.{part};
ghost use Rattle.tptp.specs.Tptp.{max_letters};
ghost use Rattle.theory.specs.Options.{told};
ghost use Rattle.declaring.specs.Letters.{letter_in, letters_in, Lettered, LettersOf, LetterFound};

use syntax::limits::Problem;

// The place and length of a variable's name in the text.
#[derive(Clone, Copy)]
pub struct Letter {
    pub name: usize,
    pub length: usize,
}

#[derive(Clone, Copy)]
pub struct Letters {
    pub names: [Letter; Problem::MAX_LETTERS],
    pub count: usize,
}

// The variables after an occurrence, and the place of its own among them.
#[derive(Clone, Copy)]
pub struct Lettering {
    pub letters: Letters,
    pub place: usize,
}

// The variables before the first occurrence.
pub fn none() -> Letters
    ensures lettered { (text : List ℕ) → Lettered text result }
    ensures empty { (text : List ℕ) → LettersOf text [] result }
{
    Letters {
        names: [Letter { name: 0, length: 0 }; Problem::MAX_LETTERS],
        count: 0,
    }
}

// An occurrence of the variable whose name stands from `start` up to `end`; none where it is the ninth, which is not put in.
pub fn letter_of(text: &[u8], letters: Letters, start: usize, end: usize) -> Option<Lettering>
    requires { Lettered text.now letters × ((start ≤ end) × (end ≤ length text.now)) }
    ensures { LetterFound text.now letters (part text.now start end) result }
{
    if let Some(place) = find_letter(text, letters, &text[start..end]) {
        return Some(Lettering { letters, place });
    }
    let place = letters.count;
    if Problem::MAX_LETTERS <= place {
        return None;
    }
    let letter = Letter {
        name: start,
        length: end - start,
    };
    Some(Lettering {
        letters: with_letter(letters, letter),
        place,
    })
}

// The place of the variable with this name, if one has it.
fn find_letter(text: &[u8], letters: Letters, name: &[u8]) -> Option<usize>
    requires { Lettered text.now letters }
    ensures { told result ≡ place_that (lists.same name.now) (letters_in text.now letters) }
{
    let known = &letters.names[..letters.count];
    known
        .iter()
        .position(|letter| is_named(text, *letter, name))
}

fn is_named(text: &[u8], letter: Letter, name: &[u8]) -> bool
    requires { letter.name + letter.length ≤ length text.now }
    ensures { result ≡ lists.same name.now (letter_in text.now letter) }
{
    let from = letter.name;
    let to = from + letter.length;
    name == &text[from..to]
}

// The variables with one more.
fn with_letter(mut letters: Letters, letter: Letter) -> Letters
    requires { letters.count < max_letters }
    ensures count { result.count ≡ letters.count + 1 }
    ensures names { take result.count result.names ≡ take letters.count letters.names ++ (letter ∷ []) }
{
    let i = letters.count;
    letters.names[i] = letter;
    letters.count = i + 1;
    letters
}
