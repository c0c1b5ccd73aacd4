// Clause lines with names in the place of their outermost fixed terms.
ghost use Rattle.std.specs.Prelude.{◌≡◌, ◌≤◌};
ghost use Rattle.theory.specs.Syntax as theory;
ghost use Rattle.syntax.specs.Signatures.{max_declared, signature_in};
ghost use Rattle.shortening.specs.Left.{LeftHere};
ghost use Rattle.shortening.specs.Tables.{SpanWithin, TableWithin, TermThere, TermsThere};
ghost use Rattle.shortening.specs.ShortLines.{NameGiven, ShortStep, LineClause, Shortened};
ghost use Rattle.shortening.specs.Asked.{WordAsked, ShortAsked};

use crate::line::next_word;
use crate::table::{place_of, with_term};
use crate::terms::{fixed_end, opens_term};
use clauses::clause::{Words, no_words, with_code};
use syntax::limits::Problem;
use syntax::signature::Signature;
use syntax::terms::{FixedTerms, Span};

// A word of a shortened clause by its code, where the words that it stands for end, and the terms that have names.
#[derive(Drop)]
pub struct ShortWord {
    pub code: u8,
    pub end: usize,
    pub terms: FixedTerms,
}

// The words of a shortened clause, and the terms that have names.
#[derive(Drop)]
pub struct ShortLine {
    pub words: Words,
    pub terms: FixedTerms,
}

// The words of a line's clause with each outermost fixed term's name in its place, and the table with those terms. Names are places behind the declared symbols; `all` has a constant for each. None where there are more terms than the table has room for.
// A function's word that stays costs at most one pass over its term's words, and no more than 65 words are kept: so the time is at most that of 65 passes over the line.
pub fn shorten(
    sheet: &[u8],
    signature: Signature,
    all: Signature,
    from: usize,
    to: usize,
    terms: FixedTerms,
) -> Option<ShortLine>
    requires { ShortAsked sheet.now signature all from to terms }
    ensures { (c : LineClause (signature_in sheet.now signature) sheet.now from to) → Shortened (signature_in sheet.now signature) (signature_in sheet.now all) sheet.now terms c.clause result }
{
    let mut words = no_words();
    let mut named = terms;
    let mut at = from;
    while at < to {
        let next = short_word(sheet, signature, named, at, to)?;
        words = with_code(all, words, next.code);
        if Problem::MAX_WORDS < words.count {
            return Some(ShortLine {
                words,
                terms: named,
            });
        }
        named = next.terms;
        at = next.end + 1;
    }
    Some(ShortLine {
        words,
        terms: named,
    })
}

// The word of the shortened clause for the words from a place on: a term's name, or the word there. None where there are too many terms.
fn short_word(
    sheet: &[u8],
    signature: Signature,
    terms: FixedTerms,
    at: usize,
    to: usize,
) -> Option<ShortWord>
    requires { WordAsked sheet.now signature terms at to }
    ensures { (l : LeftHere (signature_in sheet.now signature) sheet.now at to) → ShortStep (signature_in sheet.now signature) sheet.now at to terms l.left result }
{
    let word = next_word(sheet, signature, at, to);
    let as_it_stands = ShortWord {
        code: word.code,
        end: word.end,
        terms,
    };
    if !opens_term(signature, word.code) {
        return Some(as_it_stands);
    }
    match fixed_end(sheet, signature, at, to) {
        Some(end) => name_of(sheet, signature.count, terms, Span { from: at, to: end }),
        None => Some(as_it_stands),
    }
}

// The name of a term: that of the first equal one, or a new one if there is room.
fn name_of(sheet: &[u8], declared: usize, terms: FixedTerms, term: Span) -> Option<ShortWord>
    requires { (declared ≤ max_declared) × (TableWithin sheet.now terms × SpanWithin sheet.now term) }
    ensures { (g : theory.Signature) → TermsThere g sheet.now terms → TermThere g sheet.now term → NameGiven g sheet.now declared terms term result }
{
    if let Some(place) = place_of(sheet, terms, term) {
        return Some(ShortWord {
            code: (declared + place) as u8,
            end: term.to,
            terms,
        });
    }
    if terms.count == Problem::MAX_HELPERS {
        return None;
    }
    Some(ShortWord {
        code: (declared + terms.count) as u8,
        end: term.to,
        terms: with_term(terms, term),
    })
}
