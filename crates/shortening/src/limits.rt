// Limit 7 of a line in the mode of named terms: its clause with names, and the own clause of each of its helpers, are within the limits.
ghost use Rattle.std.specs.Prelude.{◌≡◌, length};
ghost use Rattle.theory.specs.Lists as lists;
ghost use Rattle.syntax.specs.Signatures.{signature_in};
ghost use Rattle.clauses.specs.Names.{Limited};
ghost use Rattle.naming.specs.FixedTerms.{helper_clauses};
ghost use Rattle.naming.specs.NamedReading.{is_within, is_within_named};
ghost use Rattle.shortening.specs.Tables.{terms_in};
ghost use Rattle.shortening.specs.ShortLines.{LineClause};
ghost use Rattle.shortening.specs.Measured.{Measured};
ghost use Rattle.shortening.specs.Asked.{LineAsked, HelpersAsked};

use crate::helpers::{helper_words, with_helpers};
use crate::short::shorten;
use clauses::clause::{Words, within_limits};
use syntax::limits::Problem;
use syntax::signature::Signature;
use syntax::terms::FixedTerms;

// Whether a line's clause is within the limits of the mode. Its terms have names of its own here, which makes no difference to the limits.
// A line with more than 32 different terms is over: of a clause within the limits at most 10 names are lifted, and 16 are left sides.
pub fn is_within(sheet: &[u8], signature: Signature, from: usize, to: usize) -> bool
    requires { LineAsked sheet.now signature from to }
    ensures { (c : LineClause (signature_in sheet.now signature) sheet.now from to) → result ≡ is_within_named (length (signature_in sheet.now signature)) c.clause }
{
    let all = with_helpers(signature, Problem::MAX_HELPERS);
    let Some(line) = shorten(sheet, signature, all, from, to, FixedTerms::none()) else {
        return false;
    };
    let words = line.words;
    if !fits(all, words) {
        return false;
    }
    let terms = line.terms;
    helpers_fit(sheet, signature, all, terms)
}

// Whether the own clause of each helper is within the limits.
fn helpers_fit(sheet: &[u8], signature: Signature, all: Signature, terms: FixedTerms) -> bool
    requires { HelpersAsked sheet.now signature all terms }
    ensures { result ≡ lists.all is_within (helper_clauses (length (signature_in sheet.now signature)) (terms_in (signature_in sheet.now signature) sheet.now terms)) }
{
    for i in 0..terms.count {
        let words = helper_words(sheet, signature, all, signature.count + i, terms.spans[i]);
        if !fits(all, words) {
            return false;
        }
    }
    true
}

// Whether a clause of which these words were read is within the limits.
fn fits(all: Signature, words: Words) -> bool
    requires { Limited all × Measured all words }
    ensures { (m : Measured all words) → result ≡ is_within m.clause }
{
    if Problem::MAX_WORDS < words.count {
        return false;
    }
    within_limits(all, words)
}
