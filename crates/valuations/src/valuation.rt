// Valuations (document 01: settings): checked, and turned into the table of a symbol.
ghost use Rattle.std.specs.Prelude.{◌≡◌, cond, List, map, ℕ, ◌+◌, ◌*◌, ◌^◌, ◌≤◌, ◌<◌, eqb, ltb, length, replicate, drop};
ghost use Rattle.std.specs.List.{count_by, list_all};
ghost use Rattle.theory.specs.Syntax as syntax;
ghost use Rattle.theory.specs.Propositional.{width};
ghost use Rattle.theory.specs.Valuation.{all_have_values, first_one, is_functional, is_valuation, setting_of};
ghost use Rattle.syntax.specs.Signatures.{kind_of, signature_in};
ghost use Rattle.clauses.specs.Names.{Limited};
ghost use Rattle.valuations.specs.Numbers.{NumberingOf};
ghost use Rattle.valuations.specs.Cells.{bits_at, cell_values, ones};

use crate::numbering::Numbering;
use indices::{Element, PropVar};
use interpretation::vector::power;
use syntax::signature::{Signature, Symbol};
use syntax::size::DomainSize;

// Every byte is 0 or 1.
fn is_binary(setting: &[u8]) -> bool
    ensures { result ≡ list_all (λ b. ltb b 2) setting.now }
{
    setting.iter().all(|b| *b < 2)
}

// A byte for each variable, and every byte 0 or 1; otherwise refusal 13.
pub fn is_valuation(setting: &[u8], n: Numbering) -> bool
    ensures { (s : ℕ) (g : syntax.Signature) → NumberingOf g s n → result ≡ is_valuation s g setting.now }
{
    if setting.len() != n.count as usize {
        return false;
    }
    is_binary(setting)
}

// Each function cell has exactly one result; otherwise refusal 14.
pub fn is_functional(setting: &[u8], signature: Signature, n: Numbering, size: DomainSize) -> bool
    requires limited { Limited signature × (size.0 ≤ 8) }
    requires by_index { (sheet : List ℕ) → NumberingOf (signature_in sheet signature) size.0 n }
    requires setting_len { length setting.now ≡ n.count }
    ensures { (sheet : List ℕ) → result ≡ is_functional size.0 (signature_in sheet signature) setting.now }
{
    (0..signature.count).all(|i| {
        let from = n.bases[i];
        all_have_values(setting, PropVar(from), signature.symbols[i], size)
    })
}

// Whether each cell of the symbol, whose variables start with `from`, has a value.
fn all_have_values(setting: &[u8], from: PropVar, symbol: Symbol, size: DomainSize) -> bool
    requires arity_bound { (symbol.arity ≤ 3) × (size.0 ≤ 8) × (length setting.now < 2 ^ 32) }
    requires function_in_bounds { from.0 + size.0 ^ symbol.arity * width size.0 (kind_of symbol.function) ≤ length setting.now }
    ensures { result ≡ all_have_values size.0 (replicate (size.0 ^ symbol.arity) (kind_of symbol.function)) (drop from.0 setting.now) }
{
    if !symbol.function {
        return true;
    }
    all_have_results(setting, from, power(size.0, symbol.arity as usize), size)
}

// Whether each of so many function cells, whose variables start with `from`, has exactly one result.
fn all_have_results(setting: &[u8], from: PropVar, cells: usize, size: DomainSize) -> bool
    requires size_bound { (size.0 ≤ 8) × (length setting.now < 2 ^ 32) }
    requires size_in_bounds { from.0 + cells * size.0 ≤ length setting.now }
    ensures { result ≡ all_have_values size.0 (replicate cells syntax.function) (drop from.0 setting.now) }
{
    let first = from.0 as usize;
    (0..cells).all(|r| {
        let at = first + r * size.0;
        count_ones(&setting[at..at + size.0]) == 1
    })
}

// How many of a cell's bytes are 1.
fn count_ones(cell: &[u8]) -> usize
    ensures { result ≡ count_by (λ b. eqb b 1) cell.now }
{
    let mut count = 0;
    for b in cell {
        count += usize::from(*b == 1);
    }
    count
}

// The result of the cell with these bytes: the place of the first 1, or, where there is none, their number. From the last byte to the first, so that no byte decides where the loop ends: the processor would foresee that badly.
fn first_one(cell: &[u8]) -> Element
    requires { length cell.now ≤ 8 }
    ensures { result.0 ≡ first_one cell.now }
{
    let mut place = 0;
    for d in (0..cell.len()).rev() {
        place = if cell[d] == 1 { 0 } else { place + 1 };
    }
    Element(place)
}

// The values of a symbol's cells, whose variables start with `from`.
pub fn read_table(setting: &[u8], from: PropVar, function: bool, size: DomainSize, table: &mut [u8])
    requires size_bound { (size.0 ≤ 8) × (length setting.now < 2 ^ 32) }
    requires function_in_bounds { from.0 + length table.old * width size.0 (kind_of function) ≤ length setting.now }
    ensures { table.new ≡ cell_values size.0 (kind_of function) (length table.old) from.0 setting.now }
{
    if function {
        read_results(setting, from, size, table);
    } else {
        read_truths(setting, from, table);
    }
}

// The results of a function's cells.
fn read_results(setting: &[u8], from: PropVar, size: DomainSize, table: &mut [u8])
    requires size_bound { (size.0 ≤ 8) × (length setting.now < 2 ^ 32) }
    requires size_in_bounds { from.0 + length table.old * size.0 ≤ length setting.now }
    ensures { table.new ≡ cell_values size.0 syntax.function (length table.old) from.0 setting.now }
{
    let first = from.0 as usize;
    for r in 0..table.len() {
        let at = first + r * size.0;
        let result = first_one(&setting[at..at + size.0]);
        table[r] = result.0;
    }
}

// The truth values of a predicate's cells.
fn read_truths(setting: &[u8], from: PropVar, table: &mut [u8])
    requires { from.0 + length table.old ≤ length setting.now }
    ensures { (size : ℕ) → table.new ≡ cell_values size syntax.predicate (length table.old) from.0 setting.now }
{
    let first = from.0 as usize;
    table.copy_from_slice(&setting[first..first + table.len()]);
}

// The bytes of a search's values, 1 for yes.
pub fn read_values(values: &[u32], setting: &mut [u8])
    requires { length values.now ≡ length setting.old }
    ensures { setting.new ≡ setting_of values.now }
{
    for i in 0..setting.len() {
        setting[i] = u8::from(values[i] == 1);
    }
}
