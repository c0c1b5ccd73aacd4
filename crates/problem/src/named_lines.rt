// Clause lines in the mode of named terms: the fault of one, and the terms of all.
ghost use Rattle.std.specs.Prelude.{true, ◌≤◌, length};
ghost use Rattle.text.specs.Lines.{part};
ghost use Rattle.syntax.specs.Signatures.{max_declared, signature_in};
ghost use Rattle.clauses.specs.Names.{Readable};
ghost use Rattle.problem.specs.Problems.{handed_in, HandedIn};
ghost use Rattle.problem.specs.ClausePlaces.{LineHeld};
ghost use Rattle.problem.specs.NamedTerms.{TermsNamed};

use clauses::clause::read_words;
use clauses::grammar::is_finished;
use shortening::helpers::with_helpers;
use shortening::limits::is_within;
use shortening::short::shorten;
use syntax::faults::Fault;
use syntax::limits::Problem;
use syntax::signature::Signature;
use syntax::terms::FixedTerms;
use text::lines::line_end;

// Holds a line to the grammar and to the limits of the mode: 5 to 7.
pub fn hold_named(sheet: &[u8], signature: Signature, from: usize, end: usize) -> Result<(), Fault>
    requires { (from ≤ end) × ((end ≤ length sheet.now) × (Readable sheet.now signature × (signature.count ≤ max_declared))) }
    ensures { LineHeld true (signature_in sheet.now signature) (part sheet.now from end) result }
{
    let w = read_words(sheet, signature, &sheet[from..end]).ok_or(Fault::Word)?;
    let due = w.due;
    if !is_finished(due) {
        return Err(Fault::Clause);
    }
    if !is_within(sheet, signature, from, end) {
        return Err(Fault::ClauseLimits);
    }
    Ok(())
}

// The terms of all clause lines that are named, equal ones once, in order of first appearance; none where they are too many.
pub fn named_terms(sheet: &[u8], p: Problem) -> Option<FixedTerms>
    requires { HandedIn true sheet.now p }
    ensures { TermsNamed (signature_in sheet.now p.signature) sheet.now (handed_in sheet.now p).clauses result }
{
    let signature = p.signature;
    let all = with_helpers(signature, Problem::MAX_HELPERS);
    let mut terms = FixedTerms::none();
    for k in 0..p.count {
        let from = p.clauses[k];
        let end = line_end(sheet, from);
        let line = shorten(sheet, signature, all, from, end, terms)?;
        terms = line.terms;
    }
    Some(terms)
}
