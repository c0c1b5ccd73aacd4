// An element, a cell and a propositional variable each have a number of their own, and none may stand where another is meant.
#![tactic(auto)]

// A domain element, 0 to size - 1; the texts write it as 1 to size.
#[derive(Clone, Copy)]
pub struct Element(pub u8);

// A table cell, counted from 0 over all symbols.
#[derive(Drop)]
pub struct Cell(pub usize);

// A propositional variable, counted from 0 here; the texts count from 1.
#[derive(Clone, Copy)]
pub struct PropVar(pub u32);
