// Sense logs for C.
ghost use Rattle.std.specs.Prelude.{true, false, [], ◌∷◌};
ghost use Rattle.log_reader.specs.Told.{told_back};
ghost use Rattle.terms.specs.Call as Call;
ghost use Rattle.rindthok.specs.Called.{Stored, Called};

use crate::{status, store_count};
use answer::Refusal;
use rectangular::Code6250;
use track_counts::Counts;

// Writes the log of a forward 6250 reading, and stores its length.
#[unsafe(no_mangle)]
pub extern "C" fn rindthok_log6250_forward(
    words: &[u16],
    maps: &[u16],
    log: &mut [u8],
    length: &mut usize,
    place: &mut usize,
) -> u16
    ensures { Called (Call.log false words.now maps.now) log.old log.new (length.old ∷ []) (length.new ∷ []) result place.new }
{
    let answer = log_writer::write_log(words, maps, false, log);
    status(store_count(answer, length), place)
}

// Writes the log of a backward 6250 reading, and stores the same.
#[unsafe(no_mangle)]
pub extern "C" fn rindthok_log6250_backward(
    words: &[u16],
    maps: &[u16],
    log: &mut [u8],
    length: &mut usize,
    place: &mut usize,
) -> u16
    ensures { Called (Call.log true words.now maps.now) log.old log.new (length.old ∷ []) (length.new ∷ []) result place.new }
{
    let answer = log_writer::write_log(words, maps, true, log);
    status(store_count(answer, length), place)
}

// Reads a log back with its group count: a delivery stores the maps and the marks of each track.
#[unsafe(no_mangle)]
pub extern "C" fn rindthok_read_log(
    groups: usize,
    log: &[u8],
    maps: &mut [u16],
    counts: &mut [usize; Code6250::TRACKS],
    place: &mut usize,
) -> u16
    ensures { Called (Call.read_log groups log.now) maps.old maps.new counts.old counts.new result place.new }
{
    let answer = log_reader::read_log(groups, log, maps);
    status(store_marks(answer, counts), place)
}

// Stores what reading a log back delivers: the marks of each track.
fn store_marks(
    answer: Result<Counts, Refusal>,
    counts: &mut [usize; Code6250::TRACKS],
) -> Result<(), Refusal>
    ensures { Stored (told_back answer) counts.old counts.new result }
{
    let marks = answer?;
    *counts = marks.numbers();
    Ok(())
}
