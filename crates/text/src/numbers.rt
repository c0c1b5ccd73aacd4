// Numbers of one or two digits.
ghost use Rattle.std.specs.Prelude.{◌≡◌, [], ◌∷◌, ◌-◌, ◌≤◌};
ghost use Rattle.theory.specs.Bytes.{is_digit};
ghost use Rattle.theory.specs.Lines.{count_of};
ghost use Rattle.theory.specs.Options.{told};

pub fn is_digit(b: u8) -> bool
    ensures { result ≡ is_digit b }
{
    b.is_ascii_digit()
}

// The number of one or two digits without leading zero.
pub fn count_of(value: &[u8]) -> Option<usize>
    ensures { told result ≡ count_of value.now }
{
    match value {
        [a] => one_digit(*a),
        [a, b] => two_digits(*a, *b),
        _ => None,
    }
}

fn one_digit(a: u8) -> Option<usize>
    ensures { told result ≡ count_of (a ∷ []) }
{
    if !is_digit(a) {
        return None;
    }
    Some(digit(a))
}

fn two_digits(a: u8, b: u8) -> Option<usize>
    ensures { told result ≡ count_of (a ∷ b ∷ []) }
{
    if !is_digit(a) || !is_digit(b) || a == b'0' {
        return None;
    }
    Some(digit(a) * 10 + digit(b))
}

fn digit(a: u8) -> usize
    requires { 48 ≤ a }
    ensures { result ≡ a - 48 }
{
    usize::from(a - b'0')
}
