// Writing a case at a cursor, table by table: each function answers the place after what it wrote.
ghost use Rattle.std.specs.Prelude.{◌≡◌, List, [], ◌++◌, ◌∷◌, map, ◌*◌, ◌+◌, ◌≤◌, ℕ, length};
ghost use Rattle.theory.specs.Vectors.{AllBelow};
ghost use Rattle.theory.specs.CaseText.{case_length, table_text};
ghost use Rattle.syntax.specs.Signatures.{signature_in, symbol_in};
ghost use Rattle.clauses.specs.Names.{Readable};
ghost use Rattle.text.specs.Put.{put};
ghost use Rattle.cases.specs.Writing.{LineRoom, heading_text, paired};

use crate::values::{least_byte, separator};
use interpretation::vector::power;
use syntax::signature::{Signature, Symbol};
use syntax::size::DomainSize;
use text::writing::put_bytes;

// The length of a case: 14, and for each symbol name length + 1 + 2·size^arity.
pub fn case_length(signature: Signature, size: DomainSize) -> usize
    requires { (size.0 ≤ 8) × ((sheet : List ℕ) × (Readable sheet signature × (length sheet ≤ 16384))) }
    ensures { (sheet : List ℕ) → Readable sheet signature → result ≡ case_length size.0 (signature_in sheet signature) }
{
    let mut n: usize = 14;
    for i in 0..signature.count {
        let symbol = signature.symbols[i];
        n += symbol.length + 1 + 2 * power(size.0, symbol.arity as usize);
    }
    n
}

// The first two lines.
pub fn put_heading(out: &mut [u8], size: DomainSize) -> usize
    requires { (size.0 ≤ 8) × (14 ≤ length out.old) }
    ensures written { out.new ≡ put out.old 0 (heading_text size.0) }
    ensures place { result ≡ 14 }
{
    let at = put_bytes(out, 0, b"case=1\nsize=");
    out[at] = DomainSize::ZERO_DIGIT + size.0 as u8;
    out[at + 1] = b'\n';
    at + 2
}

// A symbol's line: its name, and the values of its table.
pub fn put_table(out: &mut [u8], at: usize, sheet: &[u8], symbol: Symbol, table: &[u8]) -> usize
    requires { LineRoom sheet.now symbol table.now out.old at }
    ensures written { out.new ≡ put out.old at (table_text (symbol_in sheet.now symbol) table.now) }
    ensures place { result ≡ at + length (table_text (symbol_in sheet.now symbol) table.now) }
{
    let name = symbol.name;
    let name_end = name + symbol.length;
    let from = put_bytes(out, at, &sheet[name..name_end]);
    put_values(out, from, least_byte(symbol.function), table)
}

// Each value after its separator, and LF.
fn put_values(out: &mut [u8], at: usize, least: u8, table: &[u8]) -> usize
    requires { (least ≤ 49) × (AllBelow 8 table.now × (at + (2 * length table.now + 1) ≤ length out.old)) }
    ensures written { out.new ≡ put out.old at (paired 61 (map (λ (v : ℕ). least + v) table.now) ++ (10 ∷ [])) }
    ensures place { result ≡ at + (2 * length table.now + 1) }
{
    let mut e = at;
    for (i, value) in table.iter().enumerate() {
        out[e] = separator(i);
        out[e + 1] = least + *value;
        e += 2;
    }
    out[e] = b'\n';
    e + 1
}
