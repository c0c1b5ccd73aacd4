// The literals of a clause after step 1 made shallow, step 2 of flattening: their arguments and right sides are variables.
#![tactic(auto)]

pub mod literals;
