// The written text: a header, then a line for each clause, numbers with one space between, ` 0` at the end.
ghost use Rattle.std.specs.Prelude.{◌≡◌, [], ◌∷◌, ◌++◌, ◌+◌, ◌≤◌, ◌<◌, ◌^◌, length};
ghost use Rattle.theory.specs.Bytes.{decimal, space};
ghost use Rattle.theory.specs.Dimacs.{clause_text, header};
ghost use Rattle.text.specs.Put.{put};
ghost use Rattle.stream.specs.Literals.{prop_clause_of, literal_of, literal_spaced};

use text::writing::{decimal_length, put_bytes, put_number};

// The length of a clause's line.
pub fn clause_length(clause: &[u32]) -> usize
    requires { length (clause_text (prop_clause_of clause.now)) < 2 ^ 64 }
    ensures { result ≡ length (clause_text (prop_clause_of clause.now)) }
{
    let mut n = 2;
    for l in clause {
        n += literal_length(*l);
    }
    n
}

// The length of a literal's number and the space after it.
fn literal_length(l: u32) -> usize
    ensures { result ≡ length (literal_spaced (literal_of l)) }
{
    decimal_length(l / 2 + 1) + 1 + (l % 2) as usize
}

// A clause's line from `at` on, and the place after it.
pub fn put_clause(out: &mut [u8], at: usize, clause: &[u32]) -> usize
    requires { at + length (clause_text (prop_clause_of clause.now)) ≤ length out.old }
    ensures written { out.new ≡ put out.old at (clause_text (prop_clause_of clause.now)) }
    ensures place { result ≡ at + length (clause_text (prop_clause_of clause.now)) }
{
    let mut e = at;
    for l in clause {
        e = put_literal(out, e, *l);
    }
    out[e] = b'0';
    out[e + 1] = b'\n';
    e + 2
}

// A literal's number and the space after it.
fn put_literal(out: &mut [u8], at: usize, l: u32) -> usize
    requires { at + length (literal_spaced (literal_of l)) ≤ length out.old }
    ensures written { out.new ≡ put out.old at (literal_spaced (literal_of l)) }
    ensures place { result ≡ at + length (literal_spaced (literal_of l)) }
{
    if l % 2 == 1 {
        out[at] = b'-';
        return put_spaced(out, at + 1, l / 2 + 1);
    }
    put_spaced(out, at, l / 2 + 1)
}

// A number and the space after it.
fn put_spaced(out: &mut [u8], at: usize, n: u32) -> usize
    requires { at + length (decimal n ++ (space ∷ [])) ≤ length out.old }
    ensures written { out.new ≡ put out.old at (decimal n ++ (space ∷ [])) }
    ensures place { result ≡ at + length (decimal n ++ (space ∷ [])) }
{
    let e = put_number(out, at, n);
    out[e] = b' ';
    e + 1
}

// The first line: p cnf V M.
pub fn put_header(out: &mut [u8], at: usize, variables: u32, clauses: u32) -> usize
    requires { at + length (header variables clauses) ≤ length out.old }
    ensures written { out.new ≡ put out.old at (header variables clauses) }
    ensures place { result ≡ at + length (header variables clauses) }
{
    let a = put_bytes(out, at, b"p cnf ");
    let b = put_spaced(out, a, variables);
    let c = put_number(out, b, clauses);
    out[c] = b'\n';
    c + 1
}

pub fn header_length(variables: u32, clauses: u32) -> usize
    ensures { result ≡ length (header variables clauses) }
{
    8 + decimal_length(variables) + decimal_length(clauses)
}
