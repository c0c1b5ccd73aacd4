// Judging an interpretation: the first clause and the first choice of values under which it fails.
#![tactic(auto)]

pub mod explain;
pub mod failures;
pub mod reasons;
pub mod verdict;
