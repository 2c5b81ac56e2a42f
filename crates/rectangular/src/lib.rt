// The rectangular code of document 000: its constants and its register. specs/ has its groups and how one that
// was read is judged, over the width, and proofs/ the laws; the crate group6250 computes with them.

#![tactic(auto)]

ghost use Rattle.std.specs.Prelude.{◌≡◌};
ghost use Rattle.rectangular.specs.Constants.{times_t, times_power};

// The code's register (document 000, figure 7), which holds one byte.
#[derive(Clone, Copy, PartialEq, Eq)]
pub struct Code6250 {
    pub register: u8,
}

impl Code6250 {
    // What X^8 leaves modulo g = 1 + X^3 + X^4 + X^5 + X^8.
    pub const FEEDBACK: u8 = 57;
    // The first positive power of T that is the identity.
    pub const EXPONENT: usize = 17;
    // The tracks of a group.
    pub const TRACKS: usize = 9;
    // P, the last of them.
    pub const PARITY_TRACK: usize = 8;
    // The numbers in which a group is lent: words, one for each track.
    pub const NUMBERS: usize = 9;
    // The information bytes of a group, B7 to B1.
    pub const BYTES: usize = 7;
    // The largest word, of ten bits.
    pub const MOST_WORD: u16 = 1023;
    // The largest number that is lent for a group.
    pub const MOST_NUMBER: u16 = 1023;
    // The largest pointer map, of nine bits.
    pub const MOST_MAP: u16 = 511;
    // A record's data are at most so many bytes.
    pub const MOST_DATA: usize = 4101;
    // Behind them stand at most so many zero bytes.
    pub const MOST_PADDING: usize = 6;
    // A record has at most so many groups.
    pub const MOST_GROUPS: usize = 586;
    // Its groups have at most so many information bytes.
    pub const MOST_BODY: usize = Code6250::MOST_GROUPS * Code6250::BYTES;

    // The register before any byte: all zeros.
    pub fn fresh() -> Code6250
        ensures { result.register ≡ 0 }
    {
        Code6250 { register: 0 }
    }

    // One shift: T times the register.
    pub fn shifted(self) -> Code6250
        ensures { result.register ≡ times_t self.register }
    {
        let a = self.register;
        Code6250 {
            register: (a % 128) * 2 ^ (a / 128) * Code6250::FEEDBACK,
        }
    }

    // T to a power, times the register. Powers count modulo the exponent, so few shifts do for any.
    pub fn powered(self, power: usize) -> Code6250
        ensures { result.register ≡ times_power power self.register }
    {
        let mut code = self;
        for _ in 0..power % Code6250::EXPONENT {
            code = code.shifted();
        }
        code
    }
}
