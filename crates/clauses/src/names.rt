// Names: the symbol that has one.
ghost use Rattle.std.specs.Prelude.{◌≡◌, ◌+◌, ◌≤◌, ◌<◌, length, IfSome};
ghost use Rattle.theory.specs.Lists as lists;
ghost use Rattle.theory.specs.Options.{told};
ghost use Rattle.theory.specs.Problem.{place_of_name};
ghost use Rattle.syntax.specs.Signatures.{symbol_in, signature_in};
ghost use Rattle.clauses.specs.Names.{Readable};

use syntax::signature::{Signature, Symbol};

// The place of the symbol with this name, if one has it. It stands in its callers: a call would copy the signature once more for each word.
#[inline(always)]
pub fn find_name(sheet: &[u8], signature: Signature, name: &[u8]) -> Option<usize>
    requires { Readable sheet.now signature }
    ensures place { told result ≡ place_of_name name.now (signature_in sheet.now signature) }
    ensures within { IfSome result (λ i. i < signature.count) }
{
    for i in 0..signature.count {
        if is_named(sheet, signature.symbols[i], name) {
            return Some(i);
        }
    }
    None
}

fn is_named(sheet: &[u8], symbol: Symbol, name: &[u8]) -> bool
    requires { symbol.name + symbol.length ≤ length sheet.now }
    ensures { result ≡ lists.same name.now (symbol_in sheet.now symbol).name }
{
    let from = symbol.name;
    let to = from + symbol.length;
    name == &sheet[from..to]
}
