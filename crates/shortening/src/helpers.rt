// Helper constants: behind the declared symbols, each with a clause of its own.
ghost use Rattle.std.specs.Prelude.{◌≡◌, true, List, [], ◌∷◌, ℕ, ◌+◌, ◌≤◌, ◌<◌};
ghost use Rattle.theory.specs.Grammar.{sign, equals, symbol, clause_words};
ghost use Rattle.syntax.specs.Signatures.{max_in_all, signature_in};
ghost use Rattle.clauses.specs.Names.{Limited};
ghost use Rattle.clauses.specs.Clauses.{Passed};
ghost use Rattle.naming.specs.FixedTerms.{helper_clause};
ghost use Rattle.shortening.specs.Tables.{term_at};
ghost use Rattle.shortening.specs.HelperWords.{helper_symbol, HelpersBehind, WordsTo};
ghost use Rattle.shortening.specs.Asked.{HelperAsked};

use crate::line::next_word;
use clauses::clause::{Words, no_words, with_code};
use syntax::limits::Problem;
use syntax::signature::{Signature, Symbol};
use syntax::terms::Span;
use syntax::words::ClauseWords;

// The signature with so many helpers behind its symbols.
pub fn with_helpers(signature: Signature, n: usize) -> Signature
    requires { Limited signature × (signature.count + n ≤ max_in_all) }
    ensures { HelpersBehind signature n result }
{
    let mut all = signature;
    for _ in 0..n {
        all = all.with(helper());
    }
    all
}

// A constant without a name: it is never shown.
fn helper() -> Symbol
    ensures { result ≡ helper_symbol }
{
    Symbol {
        function: true,
        helper: true,
        arity: 0,
        name: 0,
        length: 0,
    }
}

// The words of a helper's own clause, + = constant term, for the constant at a place among all symbols; the 65th is the last that is read.
pub fn helper_words(
    sheet: &[u8],
    signature: Signature,
    all: Signature,
    place: usize,
    term: Span,
) -> Words
    requires { HelperAsked sheet.now signature all place term }
    ensures { WordsTo (signature_in sheet.now all) (clause_words (helper_clause place (term_at (signature_in sheet.now signature) sheet.now term))) result }
{
    let mut words = constant_equals(all, place);
    let mut at = term.from;
    let to = term.to;
    while at < to {
        let word = next_word(sheet, signature, at, to);
        words = with_code(all, words, word.code);
        if Problem::MAX_WORDS < words.count {
            return words;
        }
        at = word.end + 1;
    }
    words
}

// The first three words: + = constant.
fn constant_equals(all: Signature, place: usize) -> Words
    requires { Limited all × (place < all.count) }
    ensures { (sheet : List ℕ) → Passed (signature_in sheet all) (sign true ∷ equals ∷ symbol place ∷ []) result }
{
    let plus = with_code(all, no_words(), ClauseWords::PLUS);
    let equals = with_code(all, plus, ClauseWords::EQUALS);
    with_code(all, equals, place as u8)
}
