// What Find answers, with the choices that its search made; `specs/Calls` gives the documents' number and values for each case.
use answers::Refusal;

// The size of the model and the length of its case, or none and the mark settled, each with the choices made over all sizes; or stopped at a size, all that are allowed being made.
#[derive(Clone, Copy)]
pub enum FindResult {
    Found(u64, usize, u64),
    Nothing(bool, u64),
    Stopped(u64, u64),
}

// Find.
pub type AllowedAnswer = Result<FindResult, Refusal>;
