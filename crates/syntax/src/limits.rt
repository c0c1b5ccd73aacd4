// A problem (document 01: a sheet) and its limits.
use crate::signature::Signature;
use crate::terms::FixedTerms;

// The sheet's bytes are not held: a name, a clause and a fixed term are places in them.
#[derive(Clone, Copy)]
pub struct Problem {
    // the declared symbols, and the helpers behind them
    pub signature: Signature,
    // the functions, helpers included
    pub functions: usize,
    // where the value of each clause line starts
    pub clauses: [usize; Problem::MAX_CLAUSES],
    // all clauses: the helpers' own, then those of the lines
    pub count: usize,
    // the terms that the helpers stand for
    pub terms: FixedTerms,
    // whether the constant clauses are used; what is read does not depend on it
    pub symmetry: bool,
}

impl Problem {
    // the bytes of a sheet
    pub const MAX_BYTES: usize = 16384;

    // the functions, and as many predicates
    pub const MAX_OF_A_KIND: usize = 12;

    pub const MAX_DECLARED: usize = 2 * Self::MAX_OF_A_KIND;

    // the helper constants
    pub const MAX_HELPERS: usize = 32;

    pub const MAX_SYMBOLS: usize = Self::MAX_DECLARED + Self::MAX_HELPERS;

    // the bytes of a name
    pub const MAX_NAME: usize = 12;

    pub const MAX_ARITY: usize = 3;

    pub const MAX_CLAUSES: usize = 64;

    // the words of a clause
    pub const MAX_WORDS: usize = 64;

    // the literals of a clause as written
    pub const MAX_LITERALS: usize = 16;

    // the variable letters, A to H
    pub const MAX_LETTERS: usize = 8;

    // the variables of a clause after flattening
    pub const MAX_VARIABLES: usize = 10;

    // the elements of a domain
    pub const MAX_SIZE: usize = 8;

    // the terms lifted from a clause before its variables are counted: each has a word of its own
    pub const MAX_TERMS: usize = Self::MAX_WORDS;

    // the literals of a flattened clause: one for each new variable, then those that it had
    pub const MAX_FLAT_LITERALS: usize = Self::MAX_VARIABLES + Self::MAX_LITERALS;

    // the numbers of a linear form: its kind and base, then a variable and its factor for each argument and for the result
    pub const FORM: usize = 2 + 2 * (Self::MAX_ARITY + 1);

    // the numbers of a clause's linear forms
    pub const MAX_FORMS: usize = Self::MAX_FLAT_LITERALS * Self::FORM;

    // the cells of one symbol
    pub const MAX_TABLE: usize = Self::MAX_SIZE * Self::MAX_SIZE * Self::MAX_SIZE;

    // the cells of all symbols: a helper has one
    pub const MAX_CELLS: usize = Self::MAX_DECLARED * Self::MAX_TABLE + Self::MAX_HELPERS;

    // the propositional variables of one symbol
    pub const MAX_TABLE_BITS: usize = Self::MAX_TABLE * Self::MAX_SIZE;
}
