// Step 3 of document 01: the literals of a flattened clause as linear forms, and one instance of the clause.
#![tactic(auto)]

pub mod instance;
pub mod linear;
