// Lifting, step 2 of flattening on terms: every function term that is an argument gets a new variable, equal terms one.
#![tactic(auto)]

pub mod table;
pub mod terms;
