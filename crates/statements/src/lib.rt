// The grammar of TPTP clauses as code: which token may follow which, and a statement followed to its full stop.
#![tactic(auto)]

pub mod after;
pub mod due;
pub mod follow;
pub mod kinds;
