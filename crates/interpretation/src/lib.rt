// What interpretations (document 01: cases) are made of: argument vectors and the tables of symbols.
#![tactic(auto)]

pub mod tables;
pub mod vector;
