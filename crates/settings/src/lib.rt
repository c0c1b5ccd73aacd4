// Setting: the valuation of a case (document 01: its setting), a byte for each propositional variable.
#![tactic(auto)]

pub mod bits;
pub mod setting;
