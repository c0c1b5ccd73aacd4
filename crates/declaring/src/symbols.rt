// The table of the symbols that have appeared, and one occurrence of a symbol more.
ghost use Rattle.std.specs.Prelude.{◌≡◌, List, [], ℕ, ◌*◌, ◌≤◌, ◌<◌, length};
ghost use Rattle.theory.specs.Problem.{max_symbols};
ghost use Rattle.declaring.specs.Tables.{TableOf, LimitedTable, symbol_occurrence, SymbolDeclared, is_other, count_of_kind, Inserted, WithSymbol};

use clauses::names::find_name;
use problem::symbols::is_name;
use syntax::faults::Fault;
use syntax::limits::Problem;
use syntax::signature::{Signature, Symbol};

// Functions first, each kind in order of first appearance.
#[derive(Clone, Copy)]
pub struct Symbols {
    pub signature: Signature,
    pub functions: usize,
}

// The table before the first occurrence.
pub fn none() -> Symbols
    ensures limited { (text : List ℕ) → LimitedTable text result }
    ensures empty { (text : List ℕ) → TableOf text [] result }
{
    Symbols {
        signature: Signature::empty(),
        functions: 0,
    }
}

// An occurrence of the symbol whose name stands from `start` up to `end`. The first one sets kind and arity, and is held to the limits of a sheet: a later one of the same kind and arity keeps them too.
pub fn declare(
    text: &[u8],
    table: Symbols,
    start: usize,
    end: usize,
    function: bool,
    arity: usize,
) -> Result<Symbols, Fault>
    requires { LimitedTable text.now table × ((start ≤ end) × (end ≤ length text.now)) }
    ensures { SymbolDeclared text.now table start (symbol_occurrence text.now start end function arity) result }
{
    let signature = table.signature;
    if let Some(place) = find_name(text, signature, &text[start..end]) {
        if is_other(signature.symbols[place], function, arity) {
            return Err(Fault::SymbolUse);
        }
        return Ok(table);
    }
    if Problem::MAX_ARITY < arity {
        return Err(Fault::TextLimits);
    }
    if !is_name(&text[start..end]) {
        return Err(Fault::TextLimits);
    }
    if Problem::MAX_OF_A_KIND <= count_of_kind(table, function) {
        return Err(Fault::TextLimits);
    }
    let symbol = Symbol {
        function,
        helper: false,
        arity: arity as u8,
        name: start,
        length: end - start,
    };
    Ok(with_symbol(table, symbol))
}

// Whether the symbol has another kind or another arity.
fn is_other(symbol: Symbol, function: bool, arity: usize) -> bool
    ensures { result ≡ is_other symbol function arity }
{
    function != symbol.function || arity != symbol.arity as usize
}

// How many symbols of a kind there are.
fn count_of_kind(table: Symbols, function: bool) -> usize
    requires { table.functions ≤ table.signature.count }
    ensures { result ≡ count_of_kind table function }
{
    if function {
        return table.functions;
    }
    table.signature.count - table.functions
}

// The table with one symbol more, the last of its kind.
fn with_symbol(table: Symbols, symbol: Symbol) -> Symbols
    requires { (table.functions ≤ table.signature.count) × (table.signature.count < 2 * max_symbols) }
    ensures { WithSymbol table symbol result }
{
    let signature = table.signature;
    if symbol.function {
        return Symbols {
            signature: insert(signature, table.functions, symbol),
            functions: table.functions + 1,
        };
    }
    Symbols {
        signature: signature.with(symbol),
        functions: table.functions,
    }
}

// The signature with one symbol more at a place: those from there on move up by one.
fn insert(mut signature: Signature, at: usize, symbol: Symbol) -> Signature
    requires { (at ≤ signature.count) × (signature.count < 2 * max_symbols) }
    ensures { Inserted signature at symbol result }
{
    let count = signature.count;
    signature.symbols.copy_within(at..count, at + 1);
    signature.symbols[at] = symbol;
    signature.count = count + 1;
    signature
}
