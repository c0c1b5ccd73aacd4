// The words of a clause in the mode of named terms: a helper's own, or a line's with names in the place of its terms.
ghost use Rattle.std.specs.Prelude.{◌≡◌, ◌+◌, ◌≤◌, ◌<◌};
ghost use Rattle.problem.specs.Problems.{sheet_signature, line_count, Accepted, WordsOf};

use clauses::clause::kept_codes;
use shortening::helpers::helper_words;
use shortening::short::shorten;
use syntax::limits::Problem;
use syntax::signature::Signature;
use syntax::words::ClauseWords;
use text::lines::line_end;

// The helpers' own clauses come first.
pub fn named_words(sheet: &[u8], p: Problem, k: usize) -> ClauseWords
    requires { Accepted sheet.now p × ((k < p.count) × (p.terms.count ≡ 0 → ⊥)) }
    ensures { WordsOf sheet.now p k result }
{
    let n = p.terms.count;
    if k < n {
        return helper_clause(sheet, p, k);
    }
    short_clause(sheet, p, k - n)
}

// The words of helper k's own clause.
fn helper_clause(sheet: &[u8], p: Problem, k: usize) -> ClauseWords
    requires { Accepted sheet.now p × (k < p.terms.count) }
    ensures { WordsOf sheet.now p k result }
{
    let all = p.signature;
    let declared = declared_of(p);
    let terms = p.terms;
    kept_codes(helper_words(sheet, declared, all, declared.count + k, terms.spans[k]))
}

// The words of line k's clause, shortened.
fn short_clause(sheet: &[u8], p: Problem, k: usize) -> ClauseWords
    requires { Accepted sheet.now p × ((k < line_count p) × (p.terms.count ≡ 0 → ⊥)) }
    ensures { WordsOf sheet.now p (p.terms.count + k) result }
{
    let from = p.clauses[k];
    let end = line_end(sheet, from);
    let all = p.signature;
    let terms = p.terms;
    let Some(line) = shorten(sheet, declared_of(p), all, from, end, terms) else {
        // All terms of the line are named already.
        unreachable!()
    };
    kept_codes(line.words)
}

// The declared symbols.
fn declared_of(p: Problem) -> Signature
    requires { p.terms.count ≤ p.signature.count }
    ensures { result ≡ sheet_signature p }
{
    let signature = p.signature;
    let symbols = signature.symbols;
    Signature {
        symbols,
        count: signature.count - p.terms.count,
    }
}
