// Bytes of a text: lines ended by LF, words parted by one space, numbers in decimal.
#![tactic(auto)]

pub mod classes;
pub mod lines;
pub mod numbers;
pub mod writing;
