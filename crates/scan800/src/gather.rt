// One pass over the characters of a reading, which gathers the registers and the sums.
ghost use Rattle.std.specs.Prelude.{◌≡◌, ◌-◌, length};
ghost use Rattle.record800.specs.Read.{picture};
ghost use Rattle.scan800.specs.Told.{GatheredAre};

use crate::Passed;
use crate::parity::parity;
use cyclic::{Code800, enter};

// What one pass gathers: the check register and the error-pattern register, all but the longitudinal
// character entered, the exclusive-or of all characters, and how many have the wrong parity.
#[derive(Clone, Copy)]
pub(crate) struct Gathered {
    pub check: u16,
    pub error: u16,
    pub longitudinal: u16,
    pub wrong: usize,
}

// Gathers the registers and the sums of a reading.
pub(crate) fn gather(passed: &Passed) -> Gathered
    ensures { let reading = passed.now.reading in GatheredAre
        result
        (length reading.characters.now - 2)
        (picture reading.backward reading.characters.now) }
{
    let reading = passed.reading;
    let n = reading.characters.len() - Code800::CHECKS;
    let mut registers = Code800::fresh();
    let mut longitudinal: u16 = 0;
    let mut wrong: usize = 0;
    for k in 0..n {
        let next = reading.character(k);
        // 1 if the parity is wrong: that of a data character is odd.
        let off = parity(next) ^ 1;
        enter(&mut registers, next, off);
        longitudinal ^= next;
        wrong += off as usize;
    }
    let check = reading.character(n);
    let check_off = parity(check) ^ (((n + 1) % 2) as u16);
    let last = reading.character(n + 1);
    let last_off = parity(last) ^ 1;
    enter(&mut registers, check, check_off);
    Gathered {
        check: registers.check,
        error: registers.error,
        longitudinal: longitudinal ^ check ^ last,
        wrong: wrong + check_off as usize + last_off as usize,
    }
}
