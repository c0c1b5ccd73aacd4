// What is due next in a statement. A bool tells whether the whole clause is in parentheses.

// A literal's first term, before which ~ stands or not; or its second.
#[derive(Clone, Copy)]
pub enum Side {
    First(bool),
    Second,
}

// Where a term stands: whether the whole clause is in parentheses, the side of its literal, and how many argument lists are open.
#[derive(Clone, Copy)]
pub struct TermPlace {
    pub wrapped: bool,
    pub side: Side,
    pub lists: usize,
}

// The clause's name and its role have a comma each; WordEnd is what follows a lower word in a term: its arguments, or what follows the term.
#[derive(Clone, Copy)]
pub enum Due {
    Statement,
    Opening,
    Name,
    NameComma,
    Role,
    RoleComma,
    Clause,
    Literal(bool),
    LiteralEnd(bool),
    Term(TermPlace),
    WordEnd(TermPlace),
    TermEnd(TermPlace),
    Equality(bool, bool),
    Closing,
    Stop,
}
