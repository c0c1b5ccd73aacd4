// Merge: two sheets made one. Both are read, their shared names compared, the lines of each kind joined and measured, and written where they fit.
#![tactic(auto)]

pub mod agreement;
pub mod joins;
pub mod merge;
pub mod runs;
pub mod united;
