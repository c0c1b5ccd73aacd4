// The truth of a clause under a choice of values, in the order of source 004: variables, terms from inside out, atoms, signs, the clause.
// The literals are valued from the left, each one whole. The values of a literal's terms stand in a buffer that has a place for each word of the clause.
ghost use Rattle.std.specs.Prelude.{◌≡◌, ◌+◌, ◌*◌, ◌-◌, ◌<◌, ◌≤◌, get_or, length};
ghost use Rattle.theory.specs.Vectors.{AllBelow, rank};
ghost use Rattle.theory.specs.Syntax.{Literal, Term, equal};
ghost use Rattle.theory.specs.Truth.{Assignment, Interpretation, atom_true, literal_true, value};
ghost use Rattle.theory.specs.Grammar as words;
ghost use Rattle.syntax.specs.Codes.{max_places, letter_code, code_word};
ghost use Rattle.truth.specs.Values.{Chosen, ClauseLent, IsClauseValue, IsFunctionValue, IsPredicateValue, IsVariableValue};
ghost use Rattle.truth.specs.Steps.{AtomLent, IsAtomValue, TermsLent, TermsValued, VariablesLent, VariablesValued};

use indices::{Cell, Element};
use syntax::limits::Problem;
use syntax::size::DomainSize;
use syntax::words::ClauseWords;

// Where the terms of a literal end, and a place from which on they are variables.
#[derive(Drop)]
pub struct TermsSpan {
    pub tail: usize,
    pub end: usize,
}

// Variables: the value that the choice has for the letter.
pub fn variable_value(choice: &[u8], place: &[u8], letter: u8) -> Element
    requires { (letter_code ≤ letter) × ((letter - letter_code < length place.now) × (get_or place.now (letter - letter_code) 0 < length choice.now)) }
    ensures { IsVariableValue choice.now place.now (letter - letter_code) result }
{
    let x = (letter - ClauseWords::LETTER) as usize;
    let p = place[x] as usize;
    Element(choice[p])
}

// Variables: the value of each variable of a literal's terms, at its own place. The terms end before the next sign.
fn variable_values(
    words: &[u8],
    from: usize,
    place: &[u8],
    choice: &[u8],
    values: &mut [u8],
) -> TermsSpan
    requires { VariablesLent words.now from place.now choice.now × (length words.now ≤ length values.old) }
    ensures { (v : VariablesLent words.now from place.now choice.now) → VariablesValued v result values.new }
{
    let mut tail = from;
    for i in from..words.len() {
        let word = words[i];
        if ClauseWords::LETTER <= word {
            let v = variable_value(choice, place, word);
            values[i] = v.0;
            continue;
        }
        if ClauseWords::PLUS <= word {
            return TermsSpan { tail, end: i };
        }
        tail = i + 1;
    }
    TermsSpan {
        tail,
        end: words.len(),
    }
}

// Functions: the cell of the symbol with this first cell at the values of its terms. The loop's bound is fixed, so that it is compiled to straight code.
pub fn cell_at(base: Cell, arguments: &[u8], size: DomainSize) -> Cell
    requires { (base.0 ≤ 512 * max_places) × ((size.0 ≤ 8) × ((length arguments.now ≤ 3) × AllBelow size.0 arguments.now)) }
    ensures { result.0 ≡ base.0 + rank size.0 arguments.now }
{
    let s = size.0;
    let mut rank: usize = 0;
    for i in 0..Problem::MAX_ARITY {
        if arguments.len() <= i {
            return Cell(base.0 + rank);
        }
        rank = rank * s + arguments[i] as usize;
    }
    Cell(base.0 + rank)
}

// Functions: the value of a function at the values of its terms.
pub fn function_value(cells: &[u8], c: Cell) -> Element
    requires { c.0 < length cells.now }
    ensures { IsFunctionValue cells.now c result }
{
    let i = c.0;
    Element(cells[i])
}

// Functions: the values of a literal's terms, from inside out: the words are taken from the last to the first, so that a function finds the values of its terms.
// They stand one after the other, from the place that is answered up to where the terms end.
fn term_values(
    words: &[u8],
    from: usize,
    tail: usize,
    arities: &[u8],
    bases: &[usize],
    cells: &[u8],
    size: DomainSize,
    values: &mut [u8],
) -> usize
    requires { TermsLent words.now from tail arities.now bases.now cells.now size.0 values.old }
    ensures { (t : TermsLent words.now from tail arities.now bases.now cells.now size.0 values.old)
        → TermsValued t result values.new }
{
    let mut top = tail;
    for i in (from..tail).rev() {
        let word = words[i];
        if ClauseWords::LETTER <= word {
            top -= 1;
            values[top] = values[i];
            continue;
        }
        let f = word as usize;
        let rest = top + arities[f] as usize;
        let base = Cell(bases[f]);
        let c = cell_at(base, &values[top..rest], size);
        let v = function_value(cells, c);
        top = rest - 1;
        values[top] = v.0;
    }
    top
}

// Atomic formulas: the truth of a predicate at the values of its terms.
pub fn predicate_value(cells: &[u8], c: Cell) -> bool
    requires { c.0 < length cells.now }
    ensures { IsPredicateValue cells.now c result }
{
    let i = c.0;
    cells[i] == 1
}

// Atomic formulas: two terms are equal if they have the same value.
pub fn equality_value(left: Element, right: Element) -> bool
    ensures { (I : Interpretation) (ρ : Assignment) (t u : Term) → left.0 ≡ value I ρ t → right.0 ≡ value I ρ u → result ≡ atom_true I ρ (equal t u) }
{
    left.0 == right.0
}

// Atomic formulas: the truth of the atom with this first word at the values of its terms.
fn atom_value(word: u8, bases: &[usize], cells: &[u8], size: DomainSize, terms: &[u8]) -> bool
    requires { AtomLent word bases.now cells.now size.0 terms.now }
    ensures { IsAtomValue word bases.now cells.now size.0 terms.now result }
{
    if word == ClauseWords::EQUALS {
        let left = Element(terms[0]);
        let right = Element(terms[1]);
        return equality_value(left, right);
    }
    let p = word as usize;
    let base = Cell(bases[p]);
    let c = cell_at(base, terms, size);
    predicate_value(cells, c)
}

// Signs: a literal is true if its sign agrees with its atom.
pub fn literal_value(code: u8, atom: bool) -> bool
    ensures { (I : Interpretation) (ρ : Assignment) (l : Literal) → code_word code ≡ words.sign l.sign → atom ≡ atom_true I ρ l.atom → result ≡ literal_true I ρ l }
{
    if code == ClauseWords::PLUS {
        return atom;
    }
    !atom
}

// The clause: one of its literals is true. Behind a sign stands the atom's own word, a predicate or =, then its terms, so that no word's kind is asked for among `functions`.
pub fn clause_value(
    words: &[u8],
    place: &[u8],
    arities: &[u8],
    functions: &[bool],
    bases: &[usize],
    cells: &[u8],
    size: DomainSize,
    choice: &[u8],
) -> bool
    requires { (c : ClauseLent words.now place.now arities.now functions.now bases.now cells.now size.0) × Chosen c.variables size.0 choice.now }
    ensures { IsClauseValue words.now place.now arities.now functions.now bases.now cells.now size.0
        choice.now result }
{
    let mut values = [0; Problem::MAX_WORDS];
    let mut at: usize = 0;
    while at < words.len() {
        let from = at + 2;
        let span = variable_values(words, from, place, choice, &mut values);
        let top = term_values(
            words,
            from,
            span.tail,
            arities,
            bases,
            cells,
            size,
            &mut values,
        );
        let end = span.end;
        let atom = atom_value(words[at + 1], bases, cells, size, &values[top..end]);
        if literal_value(words[at], atom) {
            return true;
        }
        at = end;
    }
    false
}
