// What the program `vectors` needs beside the calls: the stored inputs read, what is lent patterned and looked at again, and the lines that are printed of answers.
#![tactic(auto)]

pub mod answered;
pub mod inputs;
pub mod lending;
pub mod lines;
