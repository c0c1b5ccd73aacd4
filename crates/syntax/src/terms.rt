// The fixed terms that helpers stand for, by their bytes in the sheet.
ghost use Rattle.std.specs.Prelude.{◌≡◌, length};

use crate::limits::Problem;

// Bytes of the sheet: from one place up to another.
#[derive(Clone, Copy)]
pub struct Span {
    pub from: usize,
    pub to: usize,
}

#[derive(Clone, Copy)]
pub struct FixedTerms {
    pub spans: [Span; Problem::MAX_HELPERS],
    pub count: usize,
}

impl FixedTerms {
    pub fn none() -> FixedTerms
        ensures count { result.count ≡ 0 }
        ensures held { length result.spans ≡ 32 }
    {
        FixedTerms {
            spans: [Span { from: 0, to: 0 }; Problem::MAX_HELPERS],
            count: 0,
        }
    }
}
