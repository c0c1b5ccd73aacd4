// The fixed terms of clause lines, and clauses with names in their place.
#![tactic(auto)]

pub mod helpers;
pub mod limits;
pub mod line;
pub mod short;
pub mod table;
pub mod terms;
