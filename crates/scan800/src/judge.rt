// Judging a record: each check in document 01's order, and which record fits by the sums of its characters.
ghost use Rattle.std.specs.Prelude.{◌≡◌, ◌-◌, length, IfOk};
ghost use Rattle.record800.specs.Read.{picture, judged_answer, space_for, length_suits, answer_if};
ghost use Rattle.scan800.specs.Told.{told_read, TrackIs};

use crate::gather::gather;
use crate::{Figures, Passed, Reading};
use answer::{Reason, Refusal};
use cyclic::Code800;
use judge800::{agree, located, unshifted};

// How many of so many characters are data: all but the two check characters.
pub fn data_length(count: usize) -> usize
    ensures { result ≡ space_for count }
{
    count.saturating_sub(Code800::CHECKS)
}

// Whether there are 3 to 2,050 characters.
fn length_suits(count: usize) -> bool
    ensures { result ≡ length_suits count }
{
    Code800::LEAST_LENGTH <= count && count <= Code800::MOST_LENGTH
}

// Judges a record whose length and characters suit: decides by the sums which record fits.
fn judge_sums(passed: &Passed) -> Result<Figures, Refusal>
    ensures answer { let reading = passed.now.reading in told_read result
        ≡ judged_answer (length reading.characters.now - 2) (picture reading.backward reading.characters.now) }
    ensures track { IfOk result TrackIs }
{
    let length = data_length(passed.reading.characters.len());
    let gathered = gather(passed);
    if gathered.wrong == 0 {
        if agree(gathered.check, gathered.longitudinal, 0) {
            return Ok(Figures {
                length,
                track: None,
                changes: 0,
            });
        }
        return Err(Reason::NoRecord.into());
    }
    let pattern = unshifted(gathered.error);
    let odd = (gathered.wrong % 2) as u16;
    let track = located(gathered.check, pattern, gathered.longitudinal, odd)?;
    Ok(Figures {
        length,
        track: Some(track),
        changes: gathered.wrong,
    })
}

// Judges a record: whether the output has space enough, each call says of its own.
pub fn judge_record(reading: &Reading, enough: bool) -> Result<Figures, Refusal>
    ensures answer { told_read result ≡ answer_if reading.now.backward reading.now.characters.now enough }
    ensures track { IfOk result TrackIs }
{
    if !length_suits(reading.characters.len()) {
        return Err(Reason::Length.into());
    }
    if !enough {
        return Err(Reason::Space.into());
    }
    if let Some(place) = reading.first_stray() {
        return Err(Refusal {
            reason: Reason::StrayBits,
            place,
        });
    }
    let passed = Passed { reading: *reading };
    judge_sums(&passed)
}
