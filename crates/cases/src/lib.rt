// The text of an interpretation (document 01: a case), read into cells and written from tables.
#![tactic(auto)]

pub mod reading;
pub mod values;
pub mod writing;
