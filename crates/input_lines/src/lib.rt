// How the programs' input is divided: the finder's four first lines, one by one, and where the case starts in the explainer's. No call is made here.
#![tactic(auto)]

pub mod allowances;
pub mod case_starts;
pub mod digits;
pub mod switches;
