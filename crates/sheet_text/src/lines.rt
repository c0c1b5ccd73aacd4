// The lines of a sheet's head: a key and a count, a key and a symbol. Each function answers a length, or the place after what it wrote.
ghost use Rattle.std.specs.Prelude.{◌≡◌, List, ℕ, ◌+◌, ◌≤◌, ◌<◌, ◌^◌, length};
ghost use Rattle.theory.specs.Bytes.{decimal};
ghost use Rattle.syntax.specs.Signatures.{symbol_in};
ghost use Rattle.theory.specs.SheetText.{line, symbol_text};
ghost use Rattle.text.specs.Put.{put};
ghost use Rattle.sheet_text.specs.Parts.{Named};

use syntax::signature::Symbol;
use syntax::size::DomainSize;
use text::writing::{decimal_length, put_bytes, put_number};

// The length of a line with a count.
pub fn count_line_length(key: &[u8], n: u32) -> usize
    requires { length (line key.now (decimal n)) < 2 ^ 64 }
    ensures { result ≡ length (line key.now (decimal n)) }
{
    key.len() + decimal_length(n) + 1
}

// The key, the number, LF.
pub fn put_count_line(out: &mut [u8], at: usize, key: &[u8], n: u32) -> usize
    requires { at + length (line key.now (decimal n)) ≤ length out.old }
    ensures written { out.new ≡ put out.old at (line key.now (decimal n)) }
    ensures place { result ≡ at + length (line key.now (decimal n)) }
{
    let from = put_bytes(out, at, key);
    let end = put_number(out, from, n);
    out[end] = b'\n';
    end + 1
}

// The length of a symbol's line: after the name stand /, the arity's digit and LF.
pub fn symbol_line_length(key: &[u8], symbol: Symbol) -> usize
    requires { length key.now + symbol.length + 3 < 2 ^ 64 }
    ensures length { (text : List ℕ) → Named text symbol → result ≡ length (line key.now (symbol_text (symbol_in text symbol))) }
    ensures short { result ≤ length key.now + symbol.length + 3 }
{
    key.len() + symbol.length + 3
}

// The key, the symbol, LF.
pub fn put_symbol_line(out: &mut [u8], at: usize, text: &[u8], key: &[u8], symbol: Symbol) -> usize
    requires { Named text.now symbol × (at + length (line key.now (symbol_text (symbol_in text.now symbol))) ≤ length out.old) }
    ensures written { out.new ≡ put out.old at (line key.now (symbol_text (symbol_in text.now symbol))) }
    ensures place { result ≡ at + length (line key.now (symbol_text (symbol_in text.now symbol))) }
{
    let from = put_bytes(out, at, key);
    let end = put_symbol(out, from, text, symbol);
    out[end] = b'\n';
    end + 1
}

// The name, / and the arity.
fn put_symbol(out: &mut [u8], at: usize, text: &[u8], symbol: Symbol) -> usize
    requires { Named text.now symbol × (at + length (symbol_text (symbol_in text.now symbol)) ≤ length out.old) }
    ensures written { out.new ≡ put out.old at (symbol_text (symbol_in text.now symbol)) }
    ensures place { result ≡ at + length (symbol_text (symbol_in text.now symbol)) }
{
    let end = put_name(out, at, text, symbol);
    out[end] = b'/';
    out[end + 1] = DomainSize::ZERO_DIGIT + symbol.arity;
    end + 2
}

// The name.
pub fn put_name(out: &mut [u8], at: usize, text: &[u8], symbol: Symbol) -> usize
    requires { Named text.now symbol × (at + length (symbol_in text.now symbol).name ≤ length out.old) }
    ensures written { out.new ≡ put out.old at (symbol_in text.now symbol).name }
    ensures place { result ≡ at + length (symbol_in text.now symbol).name }
{
    let name = symbol.name;
    let name_end = name + symbol.length;
    put_bytes(out, at, &text[name..name_end])
}
