// Renumber and Least form (document 02, slip 13): a case with its elements numbered otherwise, and the least of all such cases.
#![tactic(auto)]

pub mod least;
mod opened;
pub mod renumber;
