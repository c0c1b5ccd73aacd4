// The truth of a clause in an interpretation.
#![tactic(auto)]

pub mod values;
