// Kinds of tokens compared, and the word cnf.
ghost use Rattle.std.specs.Prelude.{◌≡◌, ◌≤◌, length};
ghost use Rattle.theory.specs.Bytes.{bytes};
ghost use Rattle.theory.specs.Lists as lists;
ghost use Rattle.text.specs.Lines.{part};
ghost use Rattle.tptp.specs.Scanning.{same_token_kind};
ghost use Rattle.tokens.specs.Pieces.{kind_in};

use tokens::pieces::Kind;

// Whether the two kinds are the same.
pub fn is(k: Kind, l: Kind) -> bool
    ensures { result ≡ same_token_kind (kind_in k) (kind_in l) }
{
    k == l
}

// Whether the bytes from a place up to another are those of cnf.
pub fn spells_cnf(text: &[u8], start: usize, end: usize) -> bool
    requires { (start ≤ end) × (end ≤ length text.now) }
    ensures { result ≡ lists.same (part text.now start end) (bytes "cnf") }
{
    &text[start..end] == b"cnf".as_slice()
}
