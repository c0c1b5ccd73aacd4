// Reading a problem (document 01: a sheet): signature, where each clause stands, or the refusal of the first faulty line.
#![tactic(auto)]

pub mod clause_lines;
pub mod lines;
pub mod modes;
pub mod named_lines;
pub mod named_words;
pub mod sections;
pub mod sheet;
pub mod symbols;
