// What the programs print for an answer: the finder's in `report`, the explainer's in `reasons`. No call is made here.
#![tactic(auto)]

pub mod reasons;
pub mod report;
