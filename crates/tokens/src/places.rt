// The line and the column of a place of a text.
ghost use Rattle.std.specs.Prelude.{◌≡◌, ◌≤◌, length};
ghost use Rattle.tptp.specs.Places.{place_of};
ghost use Rattle.tokens.specs.LinePlaces.{place_in};

#[derive(Drop)]
pub struct Place {
    pub line: usize,
    pub column: usize,
}

// The line and the column of the byte with n bytes before it.
pub fn place_of(text: &[u8], n: usize) -> Place
    requires { n ≤ length text.now }
    ensures { place_in result ≡ place_of text.now n }
{
    let mut line: usize = 1;
    let mut column: usize = 1;
    for b in &text[..n] {
        if *b == b'\n' {
            line += 1;
            column = 1;
        } else {
            column += 1;
        }
    }
    Place { line, column }
}
