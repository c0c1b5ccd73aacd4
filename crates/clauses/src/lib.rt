// Reading a clause line: names and words, the grammar, the limits.
#![tactic(auto)]

pub mod clause;
pub mod grammar;
pub mod names;
pub mod words;
