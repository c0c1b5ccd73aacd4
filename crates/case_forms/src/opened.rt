// The case that both calls write anew, once its sheet and it are accepted.

use syntax::signature::Signature;
use syntax::size::DomainSize;

// The sheet and its symbols, and the case's size and cells.
#[derive(Clone, Copy)]
pub struct OpenedCase<'a> {
    pub sheet: &'a [u8],
    pub signature: &'a Signature,
    pub size: DomainSize,
    pub cells: &'a [u8],
}
