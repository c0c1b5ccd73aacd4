// Literals as numbers: 2x says yes to variable x, 2x + 1 says no.
ghost use Rattle.std.specs.Prelude.{◌≡◌, cond, ◌+◌, ◌*◌, ◌^◌, ◌<◌};
ghost use Rattle.propagation.specs.WorkArea.{negated as negation};

use indices::PropVar;

// The literal of a variable that says yes, or no.
pub fn literal(variable: PropVar, yes: bool) -> u32
    requires { variable.0 < 2 ^ 31 }
    ensures { result ≡ 2 * variable.0 + cond yes 0 1 }
{
    2 * variable.0 + u32::from(!yes)
}

// The other literal of the same variable.
pub fn negated(literal: u32) -> u32
    ensures { result ≡ negation literal }
{
    if literal % 2 == 0 {
        literal + 1
    } else {
        literal - 1
    }
}
