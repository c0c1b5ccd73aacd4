// A sheet, and a case of it, opened: what was read, or the refusal with its column.
ghost use Rattle.std.specs.Prelude.{◌≤◌, length};
ghost use Rattle.syntax.specs.Signatures.{max_cells, signature_in};
ghost use Rattle.clauses.specs.Names.{Readable};
ghost use Rattle.columns.specs.Opened.{SheetOpened, CaseOpened};

use crate::case::case_refusal;
use crate::sheet::sheet_refusal;
use answers::Refusal;
use cases::reading::read_case;
use problem::modes::read_in;
use syntax::limits::Problem;
use syntax::signature::Signature;
use syntax::size::DomainSize;

// The sheet's problem, plain or with named terms. It stands in each of its callers, so that a plain call holds nothing of the named mode and copies no problem for it.
#[inline(always)]
pub fn open_sheet(sheet: &[u8], named: bool) -> Result<Problem, Refusal>
    ensures { SheetOpened named sheet.now result }
{
    read_in(sheet, named).map_err(|f| sheet_refusal(sheet, named, f))
}

// The size of a case, whose values are the first cells then.
pub fn open_case(
    sheet: &[u8],
    signature: Signature,
    case: &[u8],
    cells: &mut [u8],
) -> Result<DomainSize, Refusal>
    requires { Readable sheet.now signature × (max_cells ≤ length cells.old) }
    ensures { CaseOpened (signature_in sheet.now signature) case.now result cells.new }
{
    read_case(case, sheet, signature, cells).map_err(|line| case_refusal(
        case, sheet, signature, line,
    ))
}
