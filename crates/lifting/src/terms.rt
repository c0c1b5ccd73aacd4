// The term reader and the term-list reader: each term's words are read to the variable that stands for it.
ghost use Rattle.lifting.specs.Reading.{TermAt, TermLifted, TermsAt, TermsLifted};

use crate::table::{Row, Table, share};
use syntax::limits::Problem;
use syntax::words::ClauseWords;

// What is lent of a clause: its words, the place of each letter, and the arity of each symbol.
#[derive(Clone, Copy)]
pub struct Reading<'a> {
    pub words: &'a [u8],
    pub place: &'a [u8],
    pub arities: &'a [u8],
}

// A term's variable, and the place after its words.
#[derive(Drop)]
pub struct Lifted {
    pub variable: u8,
    pub next: usize,
}

// The variables of so many terms, and the place after their words.
#[derive(Drop)]
pub struct AllLifted {
    pub variables: [u8; Problem::MAX_ARITY],
    pub next: usize,
}

// A term: a variable, or a function followed by as many terms as its arity. The table is lent, so that a level of a deep term holds none of its own.
#[cycle(lift_term_lift_terms)]
pub fn lift_term(reading: &Reading, owns: u8, at: usize, table: &mut Table) -> Lifted
    requires { TermAt reading.now owns at table.old }
    ensures { (t : TermAt reading.now owns at table.old) → TermLifted t result table.new }
{
    let w = reading.words[at];
    if ClauseWords::LETTER <= w {
        let x = (w - ClauseWords::LETTER) as usize;
        return Lifted {
            variable: reading.place[x],
            next: at + 1,
        };
    }
    let f = w as usize;
    let r = lift_terms(reading, owns, at + 1, reading.arities[f], table);
    let arguments = r.variables;
    let row = Row {
        function: w,
        arguments,
    };
    Lifted {
        variable: share(table, owns, row),
        next: r.next,
    }
}

// n terms, of which as many as the largest arity are kept.
#[cycle(lift_term_lift_terms)]
pub fn lift_terms(reading: &Reading, owns: u8, at: usize, n: u8, table: &mut Table) -> AllLifted
    requires { TermsAt reading.now owns at n table.old }
    ensures { (t : TermsAt reading.now owns at n table.old) → TermsLifted t result table.new }
{
    if n == 0 {
        return AllLifted {
            variables: [0; Problem::MAX_ARITY],
            next: at,
        };
    }
    let first = lift_term(reading, owns, at, table);
    let rest = lift_terms(reading, owns, first.next, n - 1, table);
    AllLifted {
        variables: [first.variable, rest.variables[0], rest.variables[1]],
        next: rest.next,
    }
}
