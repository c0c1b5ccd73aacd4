// The head of a sheet: `sheet=1`, the functions, the predicates, and how many clauses follow. Each function answers a length, or the place after what it wrote.
ghost use Rattle.std.specs.Prelude.{◌≡◌, List, ℕ, ◌+◌, ◌*◌, ◌-◌, ◌≤◌, length};
ghost use Rattle.theory.specs.Bytes.{bytes};
ghost use Rattle.syntax.specs.Signatures.{signature_in};
ghost use Rattle.clauses.specs.Names.{Readable};
ghost use Rattle.text.specs.Put.{put};
ghost use Rattle.sheet_text.specs.Kinds.{IsKind};
ghost use Rattle.sheet_text.specs.Parts.{ShortNames, Span, between, head_text, kind_text, symbol_lines};

use crate::lines::{count_line_length, put_count_line, put_symbol_line, symbol_line_length};
use syntax::signature::Signature;
use text::writing::put_bytes;

// The symbols of one kind: what stands before their number, what stands before each, and the places from the first up to the last.
#[derive(Clone, Copy)]
struct Kind<'a> {
    counting: &'a [u8],
    key: &'a [u8],
    from: usize,
    to: usize,
}

// The functions: the first symbols, so many.
fn function_kind(functions: usize) -> Kind<'static>
    ensures { IsKind result (bytes "funs=") (bytes "fun=") 0 functions }
{
    Kind {
        counting: b"funs=",
        key: b"fun=",
        from: 0,
        to: functions,
    }
}

// The predicates: the symbols behind them, so many in all.
fn predicate_kind(functions: usize, count: usize) -> Kind<'static>
    ensures { IsKind result (bytes "preds=") (bytes "pred=") functions count }
{
    Kind {
        counting: b"preds=",
        key: b"pred=",
        from: functions,
        to: count,
    }
}

// The length of the head; the first symbols, so many, are the functions.
pub fn head_length(signature: Signature, functions: usize, clauses: u32) -> usize
    requires { ShortNames signature × (functions ≤ signature.count) }
    ensures length { (text : List ℕ) → Readable text signature → result ≡ length (head_text (signature_in text signature) functions clauses) }
    ensures short { result ≤ 2048 }
{
    let function_lines = kind_length(signature, function_kind(functions));
    let predicate_lines = kind_length(signature, predicate_kind(functions, signature.count));
    8 + function_lines + predicate_lines + count_line_length(b"clauses=", clauses)
}

// The length of the lines of one kind.
fn kind_length(signature: Signature, k: Kind<'_>) -> usize
    requires short_names { ShortNames signature × Span signature k.from k.to }
    requires counting_len_bound { (length k.counting.now ≤ 8) × (length k.key.now ≤ 8) }
    ensures length { (text : List ℕ) → Readable text signature → result ≡ length (kind_text k.entry.counting.now k.entry.key.now (between k.entry.from k.entry.to (signature_in text signature))) }
    ensures short { result ≤ 19 + 23 * (k.entry.to - k.entry.from) }
{
    count_line_length(k.counting, (k.to - k.from) as u32) + symbol_lines_length(signature, k)
}

// The length of the lines of its symbols.
fn symbol_lines_length(signature: Signature, k: Kind<'_>) -> usize
    requires { ShortNames signature × (Span signature k.from k.to × (length k.key.now ≤ 8)) }
    ensures length { (text : List ℕ) → Readable text signature → result ≡ length (symbol_lines k.entry.key.now (between k.entry.from k.entry.to (signature_in text signature))) }
    ensures short { result ≤ 23 * (k.entry.to - k.entry.from) }
{
    let mut n: usize = 0;
    for i in k.from..k.to {
        n += symbol_line_length(k.key, signature.symbols[i]);
    }
    n
}

// The head.
pub fn put_head(
    out: &mut [u8],
    at: usize,
    text: &[u8],
    signature: Signature,
    functions: usize,
    clauses: u32,
) -> usize
    requires readable { Readable text.now signature × (functions ≤ signature.count) }
    requires clauses_in_bounds { at + length (head_text (signature_in text.now signature) functions clauses) ≤ length out.old }
    ensures written { out.new ≡ put out.old at (head_text (signature_in text.now signature) functions clauses) }
    ensures place { result ≡ at + length (head_text (signature_in text.now signature) functions clauses) }
{
    let first = put_bytes(out, at, b"sheet=1\n");
    let second = put_kind(out, first, text, signature, function_kind(functions));
    let predicates = predicate_kind(functions, signature.count);
    let end = put_kind(out, second, text, signature, predicates);
    put_count_line(out, end, b"clauses=", clauses)
}

// The lines of one kind: how many symbols, and each.
fn put_kind(out: &mut [u8], at: usize, text: &[u8], signature: Signature, k: Kind<'_>) -> usize
    requires readable { Readable text.now signature × Span signature k.from k.to }
    requires signature_in_bounds { at + length (kind_text k.counting.now k.key.now (between k.from k.to (signature_in text.now signature))) ≤ length out.old }
    ensures written { out.new ≡ put out.old at (kind_text k.entry.counting.now k.entry.key.now (between k.entry.from k.entry.to (signature_in text.now signature))) }
    ensures place { result ≡ at + length (kind_text k.entry.counting.now k.entry.key.now (between k.entry.from k.entry.to (signature_in text.now signature))) }
{
    let first = put_count_line(out, at, k.counting, (k.to - k.from) as u32);
    put_symbol_lines(out, first, text, signature, k)
}

// The lines of its symbols.
fn put_symbol_lines(
    out: &mut [u8],
    at: usize,
    text: &[u8],
    signature: Signature,
    k: Kind<'_>,
) -> usize
    requires readable { Readable text.now signature × Span signature k.from k.to }
    requires signature_in_bounds { at + length (symbol_lines k.key.now (between k.from k.to (signature_in text.now signature))) ≤ length out.old }
    ensures written { out.new ≡ put out.old at (symbol_lines k.entry.key.now (between k.entry.from k.entry.to (signature_in text.now signature))) }
    ensures place { result ≡ at + length (symbol_lines k.entry.key.now (between k.entry.from k.entry.to (signature_in text.now signature))) }
{
    let mut e = at;
    for i in k.from..k.to {
        e = put_symbol_line(out, e, text, k.key, signature.symbols[i]);
    }
    e
}
