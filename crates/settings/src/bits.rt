// The bytes of a valuation, from the cells of an interpretation: symbol by symbol, cell by cell.
ghost use Rattle.std.specs.Prelude.{◌≡◌, cond, List, ℕ, ◌+◌, ◌*◌, ◌^◌, ◌≤◌, ◌<◌, eqb, length, replicate};
ghost use Rattle.theory.specs.Syntax as syntax;
ghost use Rattle.theory.specs.Propositional.{width};
ghost use Rattle.theory.specs.Valuation.{bits_of_cells, one_hot, valuation_of};
ghost use Rattle.theory.specs.Operations.{over};
ghost use Rattle.syntax.specs.Signatures.{max_cells, kind_of, signature_in};
ghost use Rattle.clauses.specs.Names.{Limited};
ghost use Rattle.text.specs.Put.{put};
ghost use Rattle.valuations.specs.Numbers.{NumberingOf};

use indices::{Element, PropVar};
use interpretation::vector::power;
use syntax::signature::Signature;
use syntax::size::DomainSize;
use text::writing::put_bytes;
use valuations::numbering::Numbering;

// The bytes of all cells' variables, at the front of the output.
pub fn put_valuation(
    out: &mut [u8],
    cells: &[u8],
    signature: Signature,
    n: Numbering,
    size: DomainSize,
)
    requires limited { Limited signature × ((size.0 ≤ 8) × (max_cells ≤ length cells.now)) }
    requires by_index { ((sheet : List ℕ) → NumberingOf (signature_in sheet signature) size.0 n) × (n.count ≤ length out.old) }
    ensures { (sheet : List ℕ) → out.new ≡ over (valuation_of size.0 (signature_in sheet signature) cells.now) out.old }
{
    let mut base: usize = 0;
    for i in 0..signature.count {
        let symbol = signature.symbols[i];
        let end = base + power(size.0, symbol.arity as usize);
        let from = n.bases[i];
        put_block(out, PropVar(from), symbol.function, &cells[base..end], size);
        base = end;
    }
}

// The bytes of a symbol's variables, which start with `from`.
fn put_block(out: &mut [u8], from: PropVar, function: bool, table: &[u8], size: DomainSize)
    requires size_bound { (size.0 ≤ 8) × (from.0 + length table.now * width size.0 (kind_of function) < 2 ^ 32) }
    requires function_in_bounds { from.0 + length table.now * width size.0 (kind_of function) ≤ length out.old }
    ensures { out.new ≡ put out.old from.0 (bits_of_cells size.0 (replicate (length table.now) (kind_of function)) table.now) }
{
    if function {
        put_results(out, from, table, size);
    } else {
        put_bytes(out, from.0 as usize, table);
    }
}

// The bytes of a function's variables: its cells one after the other.
fn put_results(out: &mut [u8], from: PropVar, table: &[u8], size: DomainSize)
    requires size_bound { (size.0 ≤ 8) × (from.0 + length table.now * size.0 < 2 ^ 32) }
    requires size_in_bounds { from.0 + length table.now * size.0 ≤ length out.old }
    ensures { out.new ≡ put out.old from.0 (bits_of_cells size.0 (replicate (length table.now) syntax.function) table.now) }
{
    let mut at = from.0;
    for value in table {
        put_result(out, PropVar(at), Element(*value), size);
        at += size.0 as u32;
    }
}

// The bytes of a function's cell: 1 for its value, 0 for every other result.
fn put_result(out: &mut [u8], from: PropVar, value: Element, size: DomainSize)
    requires { (size.0 ≤ 8) × (from.0 + size.0 ≤ length out.old) }
    ensures { out.new ≡ put out.old from.0 (one_hot size.0 value.0) }
{
    let first = from.0 as usize;
    for d in 0..size.0 {
        out[first + d] = u8::from(value.0 as usize == d);
    }
}
