// Propositional variables and their numbering, and valuations (document 01: settings).
#![tactic(auto)]

pub mod numbering;
pub mod valuation;
