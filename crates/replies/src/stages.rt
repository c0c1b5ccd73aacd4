// How far a reader of a reply is.

// Before the s line; after the claim that there is no model; among the numbers; after the 0; past a fault.
#[derive(Drop)]
pub enum Stage {
    Unanswered,
    Refuted,
    Listing,
    Complete,
    Fault,
}
