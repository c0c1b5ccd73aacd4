// Read: the counts of a sheet.
#![tactic(auto)]

ghost use Rattle.std.specs.Prelude.{◌≡◌};
ghost use Rattle.theory.specs.Operations as theory;
ghost use Rattle.answers.specs.Answers.{read_in};

use answers::{ReadAnswer, SheetCounts};
use columns::opened::open_sheet;

pub fn read_counts(sheet: &[u8]) -> ReadAnswer
    ensures { read_in result ≡ theory.read_answer sheet.now }
{
    let p = open_sheet(sheet, false)?;
    Ok(SheetCounts {
        functions: p.functions,
        predicates: p.signature.count - p.functions,
        clauses: p.count,
    })
}
