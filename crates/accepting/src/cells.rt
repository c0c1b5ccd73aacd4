// The interpretation that a setting says, as cells, and whether it is a model.
ghost use Rattle.std.specs.Prelude.{◌≡◌, List, ℕ, ◌≤◌, length, take};
ghost use Rattle.theory.specs.Cells.{cell_count, is_model};
ghost use Rattle.theory.specs.Valuation.{read_back};
ghost use Rattle.syntax.specs.Signatures.{max_cells, signature_in};
ghost use Rattle.clauses.specs.Names.{Limited};
ghost use Rattle.problem.specs.Problems.{problem_in};
ghost use Rattle.valuations.specs.Numbers.{NumberingOf};
ghost use Rattle.accepting.specs.Accepting.{FunctionalSetting};

use indices::PropVar;
use interpretation::vector::power;
use judging::failures::case_failure;
use syntax::limits::Problem;
use syntax::signature::Signature;
use syntax::size::DomainSize;
use valuations::numbering::Numbering;
use valuations::valuation::read_table;

// No clause fails in the interpretation that the setting says.
pub fn is_model(sheet: &[u8], p: Problem, n: Numbering, size: DomainSize, setting: &[u8]) -> bool
    requires { FunctionalSetting sheet.now p n size.0 setting.now }
    ensures { result ≡ is_model size.0 (problem_in sheet.now p).symbols (problem_in sheet.now p).clauses (read_back size.0 (problem_in sheet.now p).symbols setting.now) }
{
    let signature = p.signature;
    let mut cells = [0; Problem::MAX_CELLS];
    read_cells(setting, signature, n, size, &mut cells);
    case_failure(sheet, p, &cells, size).is_none()
}

// The tables of the symbols, one after the other, into the first cells.
fn read_cells(
    setting: &[u8],
    signature: Signature,
    n: Numbering,
    size: DomainSize,
    cells: &mut [u8],
)
    requires limited { Limited signature × (size.0 ≤ 8) }
    requires by_index { (sheet : List ℕ) → NumberingOf (signature_in sheet signature) size.0 n }
    requires setting_len { (length setting.now ≡ n.count) × (max_cells ≤ length cells.old) }
    ensures { (sheet : List ℕ) → take (cell_count size.0 (signature_in sheet signature)) cells.new ≡ read_back size.0 (signature_in sheet signature) setting.now }
{
    let mut base: usize = 0;
    for i in 0..signature.count {
        let symbol = signature.symbols[i];
        let from = n.bases[i];
        let end = base + power(size.0, symbol.arity as usize);
        read_table(
            setting,
            PropVar(from),
            symbol.function,
            size,
            &mut cells[base..end],
        );
        base = end;
    }
}
