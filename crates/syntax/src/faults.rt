// What is refused, and the number that documents 01 and 02 give it.
ghost use Rattle.std.specs.Prelude.{◌≡◌};
ghost use Rattle.syntax.specs.Faults.{number_of};

// In the order of the numbers, from 1 on.
#[derive(Clone, Copy, PartialEq, Eq)]
pub enum Fault {
    // a sheet of too many bytes
    SheetLength,
    // a line that is not as laid out
    SheetLine,
    // a count or an arity above its limit
    CountOrArity,
    // a name that is none, or that stands already
    Name,
    // a word that is no symbol's, sign, = or letter
    Word,
    // words that are no clause
    Clause,
    // a clause over its limits
    ClauseLimits,
    Size,
    Instances,
    WorkLength,
    OutputLength,
    CaseLine,
    // a setting of another length or with other bytes
    Setting,
    // a setting that gives a cell no value, or two
    Cell,
    // a token that cannot stand there
    Token,
    // a symbol of another kind or arity before
    SymbolUse,
    // a text that no sheet has room for
    TextLimits,
    // a solver's text that is not as laid out
    Reply,
    // a setting that is no model
    NoModel,
    // too many cells to try all cases
    PlainCells,
    // too many terms to name
    Helpers,
    // a name of another kind or arity in the other sheet
    Disagreement,
    // two sheets that no sheet has room for
    MergedLimits,
    Allowance,
    // a list that is no rearrangement
    Renumbering,
}

impl Fault {
    // The number.
    pub fn number(self) -> u8
        ensures { result ≡ number_of self }
    {
        self as u8 + 1
    }
}
