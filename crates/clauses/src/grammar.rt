// The grammar of a clause: what is due after its words, in one flat pass over a line of any length.
ghost use Rattle.std.specs.Prelude.{◌≡◌, true, List, ℕ, ◌+◌, ◌≤◌, ◌<◌, ◌^◌};
ghost use Rattle.theory.specs.Syntax as theory;
ghost use Rattle.theory.specs.Grammar.{terms, atom, due_after};
ghost use Rattle.syntax.specs.Signatures.{signature_in};
ghost use Rattle.syntax.specs.Codes.{code_word};
ghost use Rattle.clauses.specs.Names.{Limited};
ghost use Rattle.clauses.specs.Words.{is_code};
ghost use Rattle.clauses.specs.Grammar.{due_in, pending, due_next, is_finished};

use syntax::signature::Signature;
use syntax::words::ClauseWords;

#[derive(Clone, Copy)]
pub enum Due {
    // so many terms; with none due a sign or the end
    Terms(usize),
    // an atom, after a sign
    Atom,
}

// Whether the words may end there.
pub fn is_finished(due: Option<Due>) -> bool
    ensures { result ≡ is_finished (due_in due) }
{
    matches!(due, Some(Due::Terms(0)))
}

// What is due after one word more; nothing where the word cannot stand there.
pub fn after(signature: Signature, due: Option<Due>, code: u8) -> Option<Due>
    requires { Limited signature × ((is_code signature.count code ≡ true) × (pending due + 3 < 2 ^ 64)) }
    ensures due { (sheet : List ℕ) → due_in result ≡ due_next (signature_in sheet signature) (due_in due) (code_word code) }
    ensures pending { pending result ≤ pending due + 3 }
{
    match due? {
        Due::Terms(n) => after_terms(signature, n, code),
        Due::Atom => after_sign(signature, code),
    }
}

// Where n terms are due stands a letter or a function.
fn after_terms(signature: Signature, n: usize, code: u8) -> Option<Due>
    requires { Limited signature × ((is_code signature.count code ≡ true) × (n + 3 < 2 ^ 64)) }
    ensures due { (sheet : List ℕ) → due_in result ≡ due_after (signature_in sheet signature) (terms n) (code_word code) }
    ensures pending { pending result ≤ n + 3 }
{
    if n == 0 {
        return after_literal(code);
    }
    if ClauseWords::LETTER <= code {
        return Some(Due::Terms(n - 1));
    }
    if ClauseWords::PLUS <= code {
        return None;
    }
    let i = code as usize;
    let symbol = signature.symbols[i];
    if symbol.function {
        return Some(Due::Terms(symbol.arity as usize + (n - 1)));
    }
    None
}

// Where nothing is due stands a sign.
fn after_literal(code: u8) -> Option<Due>
    ensures due { (g : theory.Signature) → due_in result ≡ due_after g (terms 0) (code_word code) }
    ensures pending { pending result ≤ 0 }
{
    match code {
        ClauseWords::PLUS | ClauseWords::MINUS => Some(Due::Atom),
        _ => None,
    }
}

// Where an atom is due stands = or a predicate.
fn after_sign(signature: Signature, code: u8) -> Option<Due>
    requires { Limited signature × (is_code signature.count code ≡ true) }
    ensures due { (sheet : List ℕ) → due_in result ≡ due_after (signature_in sheet signature) atom (code_word code) }
    ensures pending { pending result ≤ 3 }
{
    if code == ClauseWords::EQUALS {
        return Some(Due::Terms(2));
    }
    if ClauseWords::PLUS <= code {
        return None;
    }
    let i = code as usize;
    let symbol = signature.symbols[i];
    if symbol.function {
        return None;
    }
    Some(Due::Terms(symbol.arity as usize))
}
