// Flattening: steps 1 and 2 of document 01 on clause words.
#![tactic(auto)]

pub mod flat;
