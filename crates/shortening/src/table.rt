// The table of terms that have names: each by its bytes in the sheet. Words are parted by one space, so terms are equal word for word exactly if their bytes are equal.
ghost use Rattle.std.specs.Prelude.{◌≡◌, IfSome, [], ◌∷◌, ◌++◌, ◌+◌, ◌<◌, length};
ghost use Rattle.theory.specs.Lists as lists;
ghost use Rattle.naming.specs.NamedReading.{max_helpers};
ghost use Rattle.shortening.specs.Tables.{bytes_at, SpanWithin, spans_of, TableWithin, PlaceOf};

use syntax::terms::{FixedTerms, Span};

// The place of the first term with the bytes of this one.
pub fn place_of(sheet: &[u8], terms: FixedTerms, term: Span) -> Option<usize>
    requires { TableWithin sheet.now terms × SpanWithin sheet.now term }
    ensures place { PlaceOf sheet.now terms term result }
    ensures within { IfSome result (λ i. i < terms.count) }
{
    for i in 0..terms.count {
        if same_bytes(sheet, terms.spans[i], term) {
            return Some(i);
        }
    }
    None
}

// Whether the bytes of two terms are the same.
fn same_bytes(sheet: &[u8], a: Span, b: Span) -> bool
    requires { SpanWithin sheet.now a × SpanWithin sheet.now b }
    ensures { result ≡ lists.same (bytes_at sheet.now a) (bytes_at sheet.now b) }
{
    let from = a.from;
    let to = a.to;
    let other = b.from;
    let end = b.to;
    sheet[from..to] == sheet[other..end]
}

// The table with one term more.
pub fn with_term(mut terms: FixedTerms, term: Span) -> FixedTerms
    requires { (length terms.spans ≡ max_helpers) × (terms.count < max_helpers) }
    ensures held { length result.spans ≡ max_helpers }
    ensures count { result.count ≡ terms.count + 1 }
    ensures spans { spans_of result ≡ spans_of terms ++ (term ∷ []) }
{
    let i = terms.count;
    terms.spans[i] = term;
    terms.count = i + 1;
    terms
}
