// The words of a statement's clause over the symbols of a signature, as codes. Reading ends once there are more words than a clause may have.
ghost use Rattle.std.specs.Prelude.{◌≡◌, Bool, true, [], ◌∷◌, map, ℕ, ◌≤◌, length};
ghost use Rattle.theory.specs.Grammar as grammar;
ghost use Rattle.syntax.specs.Signatures.{signature_in};
ghost use Rattle.clauses.specs.Names.{Limited, Readable};
ghost use Rattle.tptp.specs.Grammar.{opening};
ghost use Rattle.tptp.specs.Symbols.{of_variable};
ghost use Rattle.tptp.specs.Scanning.{occurs};
ghost use Rattle.statements.specs.Follows.{Inside};
ghost use Rattle.scanning.specs.declared.entries.Named.TheVariants.{Symbol};
ghost use Rattle.scanning.specs.Entries.{marks_in, occurrences_in, entries_in};
ghost use Rattle.scanning.specs.Taking.{name_in, entries_from};
ghost use Rattle.importing.specs.Entered.{entries_fit};
ghost use Rattle.importing.specs.Words.{Begun, Continues, Ready, Coded, StatementCoded};

use clauses::clause::{Words, no_words, with_code};
use clauses::names::find_name;
use declaring::letters::{Letters, letter_of, none};
use scanning::entries::{Entries, Marks, Named};
use scanning::taking::{Taken, take_token};
use statements::due::Due;
use syntax::limits::Problem;
use syntax::signature::Signature;
use syntax::words::ClauseWords;

// The words so far, and the variables among them.
#[derive(Drop)]
pub struct Coding {
    pub words: Words,
    pub letters: Letters,
}

// A literal's sign.
fn with_sign(signature: Signature, w: Words, positive: bool) -> Words
    requires { Limited signature × Begun signature w 66 }
    ensures { Continues signature w (grammar.sign positive ∷ []) result }
{
    let code = if positive {
        ClauseWords::PLUS
    } else {
        ClauseWords::MINUS
    };
    with_code(signature, w, code)
}

// What stands in front of a literal.
fn with_marks(signature: Signature, w: Words, marks: Marks) -> Words
    requires { Limited signature × Begun signature w 65 }
    ensures { Continues signature w (marks_in marks) result }
{
    match marks {
        Marks::None => w,
        Marks::Sign(positive) => with_sign(signature, w, positive),
        Marks::Equality(positive) => {
            let signed = with_sign(signature, w, positive);
            with_code(signature, signed, ClauseWords::EQUALS)
        }
    }
}

// A variable, which is no ninth.
fn with_variable(text: &[u8], signature: Signature, c: Coding, start: usize, end: usize) -> Coding
    requires { Ready text.now signature c 66 (occurs (of_variable (name_in text.now start end)) ∷ []) × ((start ≤ end) × (end ≤ length text.now)) }
    ensures { Coded text.now signature c (occurs (of_variable (name_in text.now start end)) ∷ []) result }
{
    let found = letter_of(text, c.letters, start, end).unwrap();
    Coding {
        words: with_code(signature, c.words, ClauseWords::LETTER + found.place as u8),
        letters: found.letters,
    }
}

// A symbol, which stands in the signature.
fn with_symbol(text: &[u8], signature: Signature, c: Coding, start: usize, end: usize) -> Coding
    requires { Ready text.now signature c 66 (map occurs (occurrences_in (name_in text.now start end) 0 (Symbol true))) × ((start ≤ end) × (end ≤ length text.now)) }
    ensures { (function : Bool) (arity : ℕ) → Coded text.now signature c (map occurs (occurrences_in (name_in text.now start end) arity (Symbol function))) result }
{
    let place = find_name(text, signature, &text[start..end]).unwrap();
    Coding {
        words: with_code(signature, c.words, place as u8),
        letters: c.letters,
    }
}

// What a token names.
fn with_named(
    text: &[u8],
    signature: Signature,
    c: Coding,
    named: Named,
    start: usize,
    end: usize,
) -> Coding
    requires { ((arity : ℕ) × Ready text.now signature c 66 (map occurs (occurrences_in (name_in text.now start end) arity named))) × ((start ≤ end) × (end ≤ length text.now)) }
    ensures { (arity : ℕ) → Coded text.now signature c (map occurs (occurrences_in (name_in text.now start end) arity named)) result }
{
    match named {
        Named::Nothing => c,
        Named::Variable => with_variable(text, signature, c, start, end),
        Named::Symbol(_) => with_symbol(text, signature, c, start, end),
    }
}

// What a token adds.
fn with_entries(
    text: &[u8],
    signature: Signature,
    c: Coding,
    entries: Entries,
    start: usize,
    end: usize,
) -> Coding
    requires { ((arity : ℕ) × Ready text.now signature c 64 (entries_in (name_in text.now start end) arity entries)) × ((start ≤ end) × (end ≤ length text.now)) }
    ensures { (arity : ℕ) → Coded text.now signature c (entries_in (name_in text.now start end) arity entries) result }
{
    let marked = Coding {
        words: with_marks(signature, c.words, entries.marks),
        letters: c.letters,
    };
    with_named(text, signature, marked, entries.named, start, end)
}

// The words of the clause of a statement, from the place after its cnf on.
pub fn words_of(text: &[u8], at: usize, signature: Signature) -> Words
    requires { Readable text.now signature × (Inside text.now opening at × (entries_fit (signature_in text.now signature) [] (entries_from text.now opening at) ≡ true)) }
    ensures { StatementCoded (signature_in text.now signature) (entries_from text.now opening at) result }
{
    let mut c = Coding {
        words: no_words(),
        letters: none(),
    };
    let mut due = Due::Opening;
    let mut i = at;
    while let Some(taken) = take_token(text, i, due) {
        let Taken {
            entries,
            start,
            end,
            due: next,
            ..
        } = taken;
        c = with_entries(text, signature, c, entries, start, end);
        if Problem::MAX_WORDS < c.words.count {
            break;
        }
        due = next;
        i = end;
    }
    c.words
}
