// Terms without variables: where one ends.
ghost use Rattle.std.specs.Prelude.{◌≡◌, true, List, ℕ, ◌≤◌, ◌<◌};
ghost use Rattle.theory.specs.Syntax.{symbol_at};
ghost use Rattle.syntax.specs.Signatures.{signature_in};
ghost use Rattle.syntax.specs.Codes.{code_word};
ghost use Rattle.clauses.specs.Names.{Limited};
ghost use Rattle.clauses.specs.Words.{is_code};
ghost use Rattle.shortening.specs.Opening.{is_opening};
ghost use Rattle.shortening.specs.FixedEnds.{TermHere, EndOf};
ghost use Rattle.shortening.specs.Asked.{TermAsked};

use crate::line::next_word;
use syntax::signature::Signature;
use syntax::words::ClauseWords;

// The end of the term that starts at a place of a line, if it has no variable: one pass over its words, with a count of the terms that are due. A line may have thousands of words.
pub fn fixed_end(sheet: &[u8], signature: Signature, at: usize, to: usize) -> Option<usize>
    requires { TermAsked sheet.now signature at to }
    ensures { (t : TermHere (signature_in sheet.now signature) sheet.now at to) → EndOf t result }
{
    let mut due: usize = 1;
    let mut next = at;
    while next < to {
        let word = next_word(sheet, signature, next, to);
        if ClauseWords::LETTER <= word.code {
            return None;
        }
        due = due - 1 + arguments(signature, word.code);
        if due == 0 {
            return Some(word.end);
        }
        next = word.end + 1;
    }
    None
}

// How many arguments a symbol has.
pub fn arguments(signature: Signature, code: u8) -> usize
    requires { Limited signature × (code < signature.count) }
    ensures arity { (sheet : List ℕ) → result ≡ (symbol_at (signature_in sheet signature) code).arity }
    ensures few { result ≤ 3 }
{
    let i = code as usize;
    signature.symbols[i].arity as usize
}

// Whether a word begins a term with arguments: it is a function that has some.
pub fn opens_term(signature: Signature, code: u8) -> bool
    requires { Limited signature × (is_code signature.count code ≡ true) }
    ensures { (sheet : List ℕ) → result ≡ is_opening (signature_in sheet signature) (code_word code) }
{
    if ClauseWords::PLUS <= code {
        return false;
    }
    let i = code as usize;
    let symbol = signature.symbols[i];
    if !symbol.function {
        return false;
    }
    0 < symbol.arity
}
