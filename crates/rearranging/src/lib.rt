// Interpretations renumbered by rearrangements of the elements, in cells: one rearrangement, or all of them with the least form kept.
#![tactic(auto)]

pub mod all;
pub mod candidates;
pub mod lists;
pub mod rearrangement;
pub mod standing;
