// Reading a record: it is judged by one pass over its characters, and a second pass stores the data.
ghost use Rattle.std.specs.Prelude.{◌++◌, ◌≡◌, ◌-◌, ◌<◌, ◌≤◌, length, drop, IfOk};
ghost use Rattle.register.specs.Parity.{parity};
ghost use Rattle.register.specs.Xor.{◌⊕◌};
ghost use Rattle.answer.specs.Answer.{output_after};
ghost use Rattle.record800.specs.Read.{picture, read_data, read_answer};
ghost use Rattle.reader800.specs.Stored.{stored_data};
ghost use Rattle.scan800.specs.Told.{told_read, track_told, TrackIs};
ghost use Rattle.terms.specs.Call as Call;
ghost use Rattle.terms.specs.Reading.{at800};
ghost use Rattle.terms.specs.Terms.{Terms};

use answer::Refusal;
use cyclic::Code800;
use scan800::{Figures, Passed, Reading, data_length, judge_record};

// 1 if the parity of a data character is wrong, since it is odd there, else 0. The ones are counted: with no look-up in it, the loop of
// `store` is compiled to take several characters at once.
fn parity_wrong(character: u16) -> u16
    requires { character < 512 }
    ensures { result ≡ parity character ⊕ 1 }
{
    (u16::count_ones(character) % 2) as u16 ^ 1
}

// Stores the data of the record that differs from the reading in a track, or in none.
pub fn store(passed: &Passed, track: Option<usize>, output: &mut [u8])
    requires { (track_told track < 10) × (length passed.now.reading.characters.now - 2 ≤ length output.old) }
    ensures { let reading = passed.now.reading in let n = length reading.characters.now - 2 in
        output.new ≡ stored_data n (picture reading.backward reading.characters.now) (track_told track) ++ drop n output.old }
{
    let reading = passed.reading;
    // With no track it is a bit that no byte has.
    let bit = track.unwrap_or(Code800::TRACKS);
    for k in 0..data_length(reading.characters.len()) {
        let next = reading.character(k);
        let off = parity_wrong(next);
        output[k] = ((next ^ (off << bit)) % 256) as u8;
    }
}

// Reads a record, forward or backward: a backward reading has its characters last first.
pub fn read_record(
    characters: &[u16],
    backward: bool,
    output: &mut [u8],
) -> Result<Figures, Refusal>
    ensures answer { told_read result ≡ read_answer backward characters.now (length output.old) }
    ensures track { IfOk result TrackIs }
    ensures output { output.new ≡ output_after (told_read result) (read_data backward characters.now) output.old }
    ensures terms { Terms (Call.read (at800 backward characters.now)) (told_read result) output.old output.new }
{
    let reading = Reading {
        characters,
        backward,
    };
    let enough = data_length(characters.len()) <= output.len();
    let figures = judge_record(&reading, enough)?;
    let passed = Passed { reading };
    store(&passed, figures.track, output);
    Ok(figures)
}
