// A symbol's line of a case, from the bits of its propositional variables.
ghost use Rattle.std.specs.Prelude.{◌≡◌, ◌+◌, ◌*◌, ◌^◌, ◌≤◌, ◌<◌, length};
ghost use Rattle.theory.specs.Propositional as theory;
ghost use Rattle.theory.specs.Valuation.{setting_of};
ghost use Rattle.syntax.specs.Signatures.{kind_of};
ghost use Rattle.text.specs.Put.{put};
ghost use Rattle.valuations.specs.Cells.{cell_values};
ghost use Rattle.reading_back.specs.Bits.{TableLent, bits_held, table_line};

use cases::writing::put_table;
use indices::PropVar;
use interpretation::vector::power;
use syntax::limits::Problem;
use syntax::signature::Symbol;
use syntax::size::DomainSize;
use valuations::numbering::width;
use valuations::valuation::{read_table, read_values};

// The bits of a valuation: a setting's bytes, or those of a search's values.
#[derive(Clone, Copy)]
pub enum Bits<'a> {
    Setting(&'a [u8]),
    Values(&'a [u32]),
}

// The values of a symbol's cells, whose variables start with `from`.
fn table_held(bits: Bits<'_>, from: PropVar, function: bool, size: DomainSize, table: &mut [u8])
    requires size_bound { (size.0 ≤ 8) × (length table.old * theory.width size.0 (kind_of function) ≤ 4096) }
    requires function_in_bounds { from.0 + length table.old * theory.width size.0 (kind_of function) ≤ length (bits_held bits) }
    requires values_len_bound { length (bits_held bits) < 2 ^ 32 }
    ensures { table.new ≡ cell_values size.0 (kind_of function) (length table.old) from.0 (bits_held bits.entry) }
{
    match bits {
        Bits::Setting(setting) => read_table(setting, from, function, size, table),
        Bits::Values(values) => table_found(values, from, function, size, table),
    }
}

// The same from a search's values, which are made bits first.
fn table_found(values: &[u32], from: PropVar, function: bool, size: DomainSize, table: &mut [u8])
    requires size_bound { (size.0 ≤ 8) × (length table.old * theory.width size.0 (kind_of function) ≤ 4096) }
    requires function_in_bounds { from.0 + length table.old * theory.width size.0 (kind_of function) ≤ length values.now }
    requires values_len_bound { length values.now < 2 ^ 32 }
    ensures { table.new ≡ cell_values size.0 (kind_of function) (length table.old) from.0 (setting_of values.now) }
{
    let mut room = [0u8; Problem::MAX_TABLE_BITS];
    let count = table.len() * width(function, size) as usize;
    let start = from.0 as usize;
    let end = start + count;
    read_values(&values[start..end], &mut room[0..count]);
    read_table(&room[0..count], PropVar(0), function, size, table);
}

// The line of a symbol, whose variables start with `from`, at the place `at`; answers the place after it.
pub fn put_symbol(
    sheet: &[u8],
    symbol: Symbol,
    from: PropVar,
    size: DomainSize,
    bits: Bits<'_>,
    out: &mut [u8],
    at: usize,
) -> usize
    requires table_lent { TableLent sheet.now symbol from.0 size.0 (bits_held bits) }
    requires values_in_bounds { at + length (table_line sheet.now symbol from.0 size.0 (bits_held bits)) ≤ length out.old }
    ensures written { out.new ≡ put out.old at (table_line sheet.now symbol from.0 size.0 (bits_held bits.entry)) }
    ensures place { result ≡ at + length (table_line sheet.now symbol from.0 size.0 (bits_held bits.entry)) }
{
    let mut table = [0u8; Problem::MAX_TABLE];
    let cells = power(size.0, symbol.arity as usize);
    let table = &mut table[0..cells];
    table_held(bits, from, symbol.function, size, table);
    put_table(out, at, sheet, symbol, table)
}
