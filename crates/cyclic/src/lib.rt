// The check characters of document 003: the code's constants, and its two registers.

#![tactic(auto)]

mod step;

ghost use Rattle.std.specs.Prelude.{◌≡◌, ◌<◌};
ghost use Rattle.cyclic.specs.Constants.{times_x};
ghost use Rattle.cyclic.specs.Step.{Advanced};

pub use step::enter;

// The check register (CRCR) and the error-pattern register (EPR) of document 003, figure 1. That they have nine bits is no
// ghost field: `entered` would then ask that of each character, and its contract, which document 01's form keeps, does not.
#[derive(Clone, Copy)]
pub struct Code800 {
    pub check: u16,
    pub error: u16,
}

impl Code800 {
    // G = 1 + X^3 + X^4 + X^5 + X^6 + X^9.
    pub const GENERATOR: u16 = 633;
    // The first positive power of X that is the identity modulo G.
    pub const EXPONENT: usize = 17;
    // The error-pattern register is ahead of E by so many powers of X: a wrong character adds X^8 to it.
    pub const AHEAD: usize = 8;
    // G2, which is added to the check character: what the check register holds after a record without error.
    pub const OFFSET: u16 = 471;
    // The tracks of a character.
    pub const TRACKS: usize = 9;
    // The largest character, of nine bits.
    pub const MOST_CHARACTER: u16 = 511;
    // A record's data are at least so many bytes.
    pub const LEAST_DATA: usize = 1;
    // A record's data are at most so many bytes.
    pub const MOST_DATA: usize = 2048;
    // Behind the data characters stand the check character and the longitudinal character.
    pub const CHECKS: usize = 2;
    // So a record has at least so many characters.
    pub const LEAST_LENGTH: usize = Code800::LEAST_DATA + Code800::CHECKS;
    // A record has at most so many characters.
    pub const MOST_LENGTH: usize = Code800::MOST_DATA + Code800::CHECKS;

    // Both registers before any character: all zeros.
    pub fn fresh() -> Code800
        ensures { (result.check ≡ 0) × (result.error ≡ 0) }
    {
        Code800 { check: 0, error: 0 }
    }

    // One step (document 003, figure 1): both registers are shifted, the character is added to the first
    // and, if its parity is wrong, X^8 to the second: `wrong` is 1 then, else 0, the number that `Advanced` multiplies.
    pub fn entered(self, character: u16, wrong: u16) -> Code800
        requires { (self.check < 512) × (self.error < 512) × (wrong < 2) }
        ensures { Advanced self character wrong result }
    {
        Code800 {
            check: shift(self.check) ^ character,
            error: shift(self.error) ^ (wrong * 256),
        }
    }
}

// The largest polynomial of nine bits that has no X^8, so that the shift makes no X^9 of it.
const NO_CARRY: u16 = Code800::MOST_CHARACTER / 2;

// X times a polynomial of nine bits, modulo G (document 003, figure 1): G is added where X^9 arises. An `if` does
// it: a multiplication would lengthen the chain of register steps, each of which waits for the one before. It tests
// the polynomial, and not what is doubled, for which it would wait too.
pub fn shift(a: u16) -> u16
    requires { a < 512 }
    ensures { result ≡ times_x a }
{
    let doubled = a * 2;
    if a <= NO_CARRY {
        doubled
    } else {
        doubled ^ Code800::GENERATOR
    }
}
