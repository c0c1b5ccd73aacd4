// The column of a refusal, told from the text after the fact.
#![tactic(auto)]

pub mod case;
mod cells;
mod due;
mod good;
pub mod lines;
pub mod opened;
pub mod sheet;
mod words;
