// The stream of propositional clauses: what is done with each of them, and the text that is written.
#![tactic(auto)]

pub mod consumer;
pub mod dimacs;
