// How many arguments the next lists of a TPTP statement have, found for many lists in one pass over the tokens, so that no list is looked through once for each list around it.
#![tactic(auto)]

pub mod arity;
pub mod noting;
pub mod pass;
