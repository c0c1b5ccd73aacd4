// The text of a sheet, written by parts at a cursor. Names are places in a lent text.
#![tactic(auto)]

pub mod clause_lines;
pub mod head;
pub mod lines;
