// Copying a record: it is judged by one pass over its characters, a second pass stores its data in an array, and from there they are
// written. Nothing is written before the answer is known, so that a refusal leaves the words.
ghost use Rattle.std.specs.Prelude.{true, ◌≡◌, ◌≤◌, leb, length, IfOk};
ghost use Rattle.answer.specs.Answer.{output_after};
ghost use Rattle.cyclic.specs.Constants.{most_data};
ghost use Rattle.copy800.specs.Copy.{copy_space, copied_record, copy_answer};
ghost use Rattle.record800.specs.Read.{space_for, length_suits};
ghost use Rattle.scan800.specs.Told.{TrackIs};
ghost use Rattle.copier800.specs.Told.{told_copied};
ghost use Rattle.terms.specs.Call as Call;
ghost use Rattle.terms.specs.Terms.{Terms};

use answer::Refusal;
use cyclic::Code800;
use reader800::{Figures, Passed, Reading, store};
use rectangular::Code6250;
use scan800::{data_length, judge_record};
use writer6250::write;

// Data of up to so many bytes take a short array, since an array is cleared when it is made; others a long one.
const SHORT: usize = 256;

const LONG: usize = Code800::MOST_DATA;

// What a copy delivers: the figures of its reading, and the number of groups written.
#[derive(Clone, Copy)]
pub struct Copied {
    pub figures: Figures,
    pub groups: usize,
}

// Whether so many words have space for the data of so many characters. The space is divided, since a product could overflow.
fn has_space(count: usize, space: usize) -> bool
    ensures { result ≡ leb (copy_space count) space }
{
    let size = data_length(count);
    let groups = size / Code6250::BYTES + 1;
    groups <= space / Code6250::NUMBERS
}

// Copies a record through an array that has space for its data.
fn copy_through<const SPACE: usize>(reading: &Reading, words: &mut [u16]) -> Result<Copied, Refusal>
    requires small { SPACE ≤ most_data }
    requires enough { length_suits (length reading.now.characters.now) ≡ true
        → space_for (length reading.now.characters.now) ≤ SPACE }
    ensures answer { told_copied result ≡ copy_answer reading.now.backward reading.now.characters.now (length words.old) }
    ensures track { IfOk result (λ copied. TrackIs copied.figures) }
    ensures output { words.new
        ≡ output_after
        (told_copied result)
        (copied_record reading.now.backward reading.now.characters.now)
        words.old }
{
    let enough = has_space(reading.characters.len(), words.len());
    let figures = judge_record(reading, enough)?;
    let mut bytes = [0u8; SPACE];
    let passed = Passed { reading: *reading };
    store(&passed, figures.track, &mut bytes);
    let groups = write(&bytes[..figures.length], words)?;
    Ok(Copied { figures, groups })
}

// Copies a record, forward or backward: a backward reading has its characters last first. What is written is forward.
pub fn copy_record(characters: &[u16], backward: bool, words: &mut [u16]) -> Result<Copied, Refusal>
    ensures answer { told_copied result ≡ copy_answer backward characters.now (length words.old) }
    ensures track { IfOk result (λ copied. TrackIs copied.figures) }
    ensures output { words.new ≡ output_after (told_copied result) (copied_record backward characters.now) words.old }
    ensures terms { Terms (Call.copy backward characters.now) (told_copied result) words.old words.new }
{
    let reading = Reading {
        characters,
        backward,
    };
    if data_length(characters.len()) <= SHORT {
        copy_through::<SHORT>(&reading, words)
    } else {
        copy_through::<LONG>(&reading, words)
    }
}
