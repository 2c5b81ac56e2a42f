// Reading a record: it is judged into arrays of its own, and its data are delivered once all of it is known to fit.
ghost use Rattle.std.specs.Prelude.{true, ◌≡◌, ◌*◌, ◌^◌, ◌<◌, ◌≤◌, length};
ghost use Rattle.answer.specs.Answer.{output_after};
ghost use Rattle.rectangular.specs.Constants.{bytes_per_group};
ghost use Rattle.record6250.specs.Read.{space_for, read_data, answer_if, read_answer};
ghost use Rattle.scan6250.specs.Told.{told_read};
ghost use Rattle.terms.specs.Call as Call;
ghost use Rattle.terms.specs.Reading.{at6250};
ghost use Rattle.terms.specs.Terms.{Terms};

use answer::{Reason, Refusal};
use rectangular::Code6250;
use scan6250::{Figures, LONG, LONG_BYTES, Reading, SHORT, SHORT_BYTES, judge_record};

// Reads a record that has space, judged into arrays of so many groups and bytes.
fn read_within<const GROUPS: usize, const BYTES: usize>(
    reading: &Reading,
    output: &mut [u8],
) -> Result<Figures, Refusal>
    requires { (length reading.now.maps.now ≤ GROUPS) × (bytes_per_group * length reading.now.maps.now ≤ BYTES) × (space_for (length reading.now.maps.now) ≤ length output.old) × (GROUPS < 2 ^ 32) × (BYTES < 2 ^ 32) }
    ensures answer { told_read result ≡ answer_if reading.now.backward reading.now.words.now reading.now.maps.now true }
    ensures output { output.new ≡ output_after (told_read result) (read_data reading.now.backward reading.now.words.now reading.now.maps.now) output.old }
{
    let mut body = [0u8; BYTES];
    let mut changed = [0u16; GROUPS];
    let figures = judge_record(reading, &mut body, &mut changed)?;
    let data = &mut output[..figures.length];
    data.copy_from_slice(&body[..figures.length]);
    Ok(figures)
}

// Reads a record: the words of each group, tracks 0 to 8, and a pointer map for each. One that passed the head backward has groups and
// maps last first, and each word's bits reversed. A short record takes small arrays, since an array is cleared.
pub fn read_record(
    words: &[u16],
    maps: &[u16],
    backward: bool,
    output: &mut [u8],
) -> Result<Figures, Refusal>
    ensures answer { told_read result ≡ read_answer backward words.now maps.now (length output.old) }
    ensures output { output.new ≡ output_after (told_read result) (read_data backward words.now maps.now) output.old }
    ensures terms { Terms (Call.read (at6250 backward words.now maps.now)) (told_read result) output.old output.new }
{
    let reading = Reading::new(words, maps, backward).ok_or(Reason::Length)?;
    let groups = maps.len();
    if output.len() < groups * Code6250::BYTES - 1 {
        return Err(Reason::Space.into());
    }
    if groups <= SHORT {
        read_within::<SHORT, SHORT_BYTES>(&reading, output)
    } else {
        read_within::<LONG, LONG_BYTES>(&reading, output)
    }
}
