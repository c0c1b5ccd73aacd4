// Clause words: a clause as one code for each of its words. A symbol's code is its place in the signature, every other word's is its byte, behind
// the places that symbols may have.
use crate::limits::Problem;

#[derive(Clone, Copy)]
pub struct ClauseWords {
    pub words: [u8; Problem::MAX_WORDS],
    pub count: usize,
}

impl ClauseWords {
    // the places that symbols may have
    pub const MAX_PLACES: u8 = 128;

    pub const PLUS: u8 = Self::MAX_PLACES + b'+';

    pub const MINUS: u8 = Self::MAX_PLACES + b'-';

    pub const EQUALS: u8 = Self::MAX_PLACES + b'=';

    // the code of the variable letter A; the others follow, up to H
    pub const LETTER: u8 = Self::MAX_PLACES + b'A';

    // the code after that of the last letter
    pub const PAST_LETTERS: u8 = Self::LETTER + Problem::MAX_LETTERS as u8;
}
