// Instancing: step 3 of document 01, the instances of a problem's clauses at a size in written order.
#![tactic(auto)]

pub mod instances;
