// Writing a record.
ghost use Rattle.std.specs.Prelude.{◌≡◌, ◌+◌, ◌≤◌, length};
ghost use Rattle.answer.specs.Answer.{told_written, output_after};
ghost use Rattle.record800.specs.Record.{written_record};
ghost use Rattle.record800.specs.Written.{write_answer};
ghost use Rattle.writer800.specs.Stored.{stored, sums_are};
ghost use Rattle.terms.specs.Call as Call;
ghost use Rattle.terms.specs.Reading.{bpi800};
ghost use Rattle.terms.specs.Terms.{Terms};

use crate::character::character_of;
use answer::{Reason, Refusal};
use cyclic::{Code800, shift};

// The check register and the exclusive-or of the characters that are stored.
#[derive(Clone, Copy)]
struct Sums {
    check: u16,
    longitudinal: u16,
}

// Stores the data characters at the front, each by one look-up.
fn write_data(bytes: &[u8], characters: &mut [u16]) -> Sums
    requires { length bytes.now ≤ length characters.old }
    ensures output { characters.new ≡ stored bytes.now characters.old }
    ensures check { sums_are result bytes.now }
{
    let mut check: u16 = 0;
    let mut longitudinal: u16 = 0;
    for (k, byte) in bytes.iter().enumerate() {
        let next = character_of(*byte);
        characters[k] = next;
        check = shift(check) ^ next;
        longitudinal ^= next;
    }
    Sums {
        check,
        longitudinal,
    }
}

// Writes a record: data as characters, into the front of the output.
pub fn write(bytes: &[u8], characters: &mut [u16]) -> Result<usize, Refusal>
    ensures answer { told_written result ≡ write_answer (length bytes.now) (length characters.old) }
    ensures output { characters.new ≡ output_after (told_written result) (written_record bytes.now) characters.old }
    ensures terms { Terms (Call.write bpi800 bytes.now) (told_written result) characters.old characters.new }
{
    let n = bytes.len();
    if n < Code800::LEAST_DATA || n > Code800::MOST_DATA {
        return Err(Reason::Length.into());
    }
    if characters.len() < n + Code800::CHECKS {
        return Err(Reason::Space.into());
    }
    let sums = write_data(bytes, characters);
    let check = shift(sums.check) ^ Code800::OFFSET;
    characters[n] = check;
    characters[n + 1] = sums.longitudinal ^ check;
    Ok(n + Code800::CHECKS)
}
