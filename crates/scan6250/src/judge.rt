// Judging a record: stray bits, then the groups, then the padding (document 01, "Where a call is turned down").
ghost use Rattle.std.specs.Prelude.{true, ◌∷◌, ◌≡◌, ◌*◌, ◌≤◌, length};
ghost use Rattle.rectangular.specs.Constants.{bytes_per_group};
ghost use Rattle.record6250.specs.Read.{answer_if};
ghost use Rattle.track_counts.specs.Counts.{counts_told};
ghost use Rattle.scan6250.specs.Told.{told_read, padding_answer, reached, bytes_gathered, maps_gathered};

use crate::Figures;
use crate::corrected::padding_suits;
use crate::gather::gather;
use answer::{Reason, Refusal};
use reading6250::Reading;
use rectangular::Code6250;
use track_counts::Counts;

// Holds the corrected bytes to the padding rule.
fn padded(bytes: &[u8], changes: usize, counts: Counts) -> Result<Figures, Refusal>
    requires { bytes_per_group ≤ length bytes.now }
    ensures { told_read result ≡ padding_answer bytes.now (changes ∷ counts_told counts) }
{
    if !padding_suits(bytes) {
        return Err(Reason::Padding.into());
    }
    let size = bytes.len();
    let length = size - 1 - bytes[size - 1] as usize;
    Ok(Figures {
        length,
        changes,
        counts,
    })
}

// Judges a record, forward or backward. It tells the answer with space enough, and gathers at the front of the two slices as far as
// it came.
pub fn judge_record(
    reading: &Reading,
    body: &mut [u8],
    changed: &mut [u16],
) -> Result<Figures, Refusal>
    requires { (bytes_per_group * length reading.now.maps.now ≤ length body.old) × (length reading.now.maps.now ≤ length changed.old) }
    ensures answer { told_read result ≡ answer_if reading.now.backward reading.now.words.now reading.now.maps.now true }
    ensures bytes { body.new ≡ bytes_gathered reading.now.backward reading.now.words.now reading.now.maps.now (reached reading.now.backward reading.now.words.now reading.now.maps.now) body.old }
    ensures maps { changed.new ≡ maps_gathered reading.now.backward reading.now.words.now reading.now.maps.now (reached reading.now.backward reading.now.words.now reading.now.maps.now) changed.old }
{
    if let Some(place) = reading.first_stray() {
        return Err(Refusal {
            reason: Reason::StrayBits,
            place,
        });
    }
    let (changes, counts) = gather(reading, body, changed)?;
    let size = reading.maps.len() * Code6250::BYTES;
    padded(&body[..size], changes, counts)
}
