// Read back: the interpretation that a valuation says, written as the text of a case.
#![tactic(auto)]

pub mod setting;
pub mod tables;
pub mod writing;
