// A sheet read in one of the two modes: plain, or with named terms.
ghost use Rattle.std.specs.Prelude.{◌≡◌, IfOk};
ghost use Rattle.problem.specs.Problems.{reading_of, Accepted};
ghost use Rattle.problem.specs.Modes.{read_in};

use crate::sections::SheetFault;
use crate::sheet::{read_named, read_problem};
use syntax::limits::Problem;

// It stands in its callers, which mostly know the mode.
#[inline(always)]
pub fn read_in(sheet: &[u8], named: bool) -> Result<Problem, SheetFault>
    ensures read { reading_of sheet.now result ≡ read_in named sheet.now }
    ensures accepted { IfOk result (Accepted sheet.now) }
{
    if named {
        return read_named(sheet);
    }
    read_problem(sheet)
}
