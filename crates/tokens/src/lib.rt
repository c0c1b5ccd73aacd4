// The tokens of a TPTP text, found one at a time from a place on, and the line and column of a place.
#![tactic(auto)]

pub mod classes;
pub mod comments;
pub mod next;
pub mod numbers;
pub mod pieces;
pub mod places;
pub mod runs;
