// What the promises of the public calls come to: definitions and theorems of the records of calls, see specs/ and proofs/. This crate has no code.
#![tactic(auto)]
