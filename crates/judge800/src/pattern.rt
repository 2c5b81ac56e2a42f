// The error pattern E from the register that holds X^8 E.
ghost use Rattle.std.specs.Prelude.{◌≡◌, ◌-◌, ◌<◌};
ghost use Rattle.register.specs.Shift.{shifts};
ghost use Rattle.cyclic.specs.Constants.{feedback, exponent, ahead};

use cyclic::{Code800, shift};

// So many shifts take the error-pattern register, X^8 E, to E: the exponent of X is 17.
const SHIFTS_BACK: usize = Code800::EXPONENT - Code800::AHEAD;

// E, out of the register.
pub fn unshifted(error: u16) -> u16
    requires { error < 512 }
    ensures { result ≡ shifts 9 feedback (exponent - ahead) error }
{
    let mut pattern = error;
    for _ in 0..SHIFTS_BACK {
        pattern = shift(pattern);
    }
    pattern
}
