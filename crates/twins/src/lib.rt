// Twins: the constant clauses of document 02, slip 10, which keep a search from finding a case again with its elements numbered otherwise.
#![tactic(auto)]

pub mod constant_clauses;
pub mod constants;
