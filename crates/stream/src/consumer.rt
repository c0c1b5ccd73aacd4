// What is done with each clause of the stream: its text is measured or written, its literals are counted or entered in a search's work area.
ghost use Rattle.std.specs.Prelude.{[], ◌∷◌};
ghost use Rattle.stream.specs.Literals.{prop_clause_of};
ghost use Rattle.stream.specs.Consuming.{Effect, Consumes, Consumed};
ghost use Rattle.stream.specs.Consumers.{measuring, writing, tallying, entering};

use crate::dimacs::{clause_length, put_clause};
use loading::{enter, tally};

// What takes the clauses of a stream one by one.
pub trait ClauseConsumer {
    ghost effect: { Effect Self };

    // One clause more.
    fn take(&mut self, clause: &[u32])
        requires { Consumes effect (prop_clause_of clause.now ∷ []) self.old }
        ensures { Consumed effect (prop_clause_of clause.now ∷ []) self.old self.new };
}

// The place after the lines so far, and the number of clauses so far.
#[derive(Clone, Copy)]
pub struct Measuring {
    pub at: usize,
    pub count: usize,
}

impl ClauseConsumer for Measuring {
    ghost effect = { measuring };

    fn take(&mut self, clause: &[u32]) {
        self.at += clause_length(clause);
        self.count += 1;
    }
}

// The lines go into the output, the next one to this place; so many are there.
#[derive(Drop)]
pub struct Writing<'a> {
    pub output: &'a mut [u8],
    pub at: usize,
    pub count: usize,
}

impl<'a> ClauseConsumer for Writing<'a> {
    ghost effect = { writing };

    fn take(&mut self, clause: &[u32]) {
        self.at = put_clause(self.output, self.at, clause);
        self.count += 1;
    }
}

// The literals of each of so many variables are counted in the work area, and so are the clauses.
#[derive(Drop)]
pub struct Tallying<'a> {
    pub work: &'a mut [u32],
    pub variables: usize,
    pub count: usize,
}

impl<'a> ClauseConsumer for Tallying<'a> {
    ghost effect = { tallying };

    fn take(&mut self, clause: &[u32]) {
        tally(self.work, self.variables, clause);
        self.count += 1;
    }
}

// The counted clauses are entered in the work area; so many are.
#[derive(Drop)]
pub struct Entering<'a> {
    pub work: &'a mut [u32],
    pub variables: usize,
    pub count: usize,
}

impl<'a> ClauseConsumer for Entering<'a> {
    ghost effect = { entering };

    fn take(&mut self, clause: &[u32]) {
        enter(self.work, self.variables, clause, self.count);
        self.count += 1;
    }
}
