// Writing the log of a reading: it is judged into arrays of its own, and its log is stored once all of it is known to fit.
ghost use Rattle.std.specs.Prelude.{true, ◌≡◌, ◌*◌, ◌≤◌, length};
ghost use Rattle.answer.specs.Answer.{output_after, told_written};
ghost use Rattle.rectangular.specs.Constants.{most_groups, bytes_per_group};
ghost use Rattle.record6250.specs.Read.{answer_if};
ghost use Rattle.sense_log.specs.Log.{log_space};
ghost use Rattle.sense_log.specs.Written.{logged, reading_log, log_answer};
ghost use Rattle.terms.specs.Call as Call;
ghost use Rattle.terms.specs.Terms.{Terms};

use crate::store::store_log;
use answer::{Reason, Refusal};
use scan6250::{LONG, LONG_BYTES, Reading, SHORT, SHORT_BYTES, judge_record};
use sense_log::bit_map_length;

// Writes the log of a reading, judged into arrays of so many groups and bytes: a refused reading has no log.
fn log_within<const GROUPS: usize, const BYTES: usize>(
    reading: &Reading,
    log: &mut [u8],
) -> Result<usize, Refusal>
    requires sizes { (GROUPS ≤ most_groups) × (BYTES ≡ bytes_per_group * GROUPS) }
    requires groups { length reading.now.maps.now ≤ GROUPS }
    requires space { log_space (length reading.now.maps.now) ≤ length log.old }
    ensures answer { told_written result ≡ logged (length (reading_log reading.now.backward reading.now.words.now reading.now.maps.now)) (answer_if reading.now.backward reading.now.words.now reading.now.maps.now true) }
    ensures log { log.new ≡ output_after (told_written result) (reading_log reading.now.backward reading.now.words.now reading.now.maps.now) log.old }
{
    let mut body = [0u8; BYTES];
    let mut changed = [0u16; GROUPS];
    let read = judge_record(reading, &mut body, &mut changed);
    // the log is stored once all of the reading is known to fit
    read?;
    Ok(store_log(&changed[..reading.maps.len()], log))
}

// Writes the log of a reading: the words of each group, tracks 0 to 8, and a pointer map for each. One that passed the head backward has
// groups and maps last first; the log is in forward order. A short record takes small arrays, since an array is cleared.
pub fn write_log(
    words: &[u16],
    maps: &[u16],
    backward: bool,
    log: &mut [u8],
) -> Result<usize, Refusal>
    ensures answer { told_written result ≡ log_answer backward words.now maps.now (length log.old) }
    ensures log { log.new ≡ output_after (told_written result) (reading_log backward words.now maps.now) log.old }
    ensures terms { Terms (Call.log backward words.now maps.now) (told_written result) log.old log.new }
{
    let reading = Reading::new(words, maps, backward).ok_or(Reason::Length)?;
    let groups = maps.len();
    if log.len() < bit_map_length(groups) + 2 * groups {
        return Err(Reason::Space.into());
    }
    if groups <= SHORT {
        log_within::<SHORT, SHORT_BYTES>(&reading, log)
    } else {
        log_within::<LONG, LONG_BYTES>(&reading, log)
    }
}
