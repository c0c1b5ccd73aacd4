// The clause of a TPTP statement told token by token: what each token adds to the words of the sheet's clause. Relations are found by looking ahead; how many arguments a symbol has is not asked here.
#![tactic(auto)]

pub mod ahead;
pub mod entries;
pub mod taking;
