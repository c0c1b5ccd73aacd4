// A problem as the code holds it: its limits, its symbols, its clauses as codes of their words.
#![tactic(auto)]

pub mod faults;
pub mod limits;
pub mod signature;
pub mod size;
pub mod terms;
pub mod variables;
pub mod words;
