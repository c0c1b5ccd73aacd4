// What is refused of a text.
use syntax::faults::Fault;

// What is refused, and how many bytes stand before it.
#[derive(Clone, Copy)]
pub struct TextFault {
    pub fault: Fault,
    pub place: usize,
}
