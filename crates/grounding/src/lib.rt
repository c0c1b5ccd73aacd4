// Grounding: of step 4 of document 01 the clauses of the function cells at a size, that each has a result and not two.
#![tactic(auto)]

pub mod cell_clauses;
