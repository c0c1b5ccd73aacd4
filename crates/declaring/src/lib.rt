// The symbols of a TPTP text and the variables of one of its clauses, as they appear. Names are places in the text.
#![tactic(auto)]

pub mod letters;
pub mod symbols;
