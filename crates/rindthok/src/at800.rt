// Records at 800 for C.
ghost use Rattle.std.specs.Prelude.{true, false, [], ◌∷◌};
ghost use Rattle.scan800.specs.Told.{told_read};
ghost use Rattle.terms.specs.Call as Call;
ghost use Rattle.terms.specs.Reading.{bpi800, at800};
ghost use Rattle.rindthok.specs.Called.{Stored, Called};

use crate::{status, store_count};
use answer::Refusal;
use cyclic::Code800;
use reader800::Figures;

// Writes an 800 record, and stores the number of its characters.
#[unsafe(no_mangle)]
pub extern "C" fn rindthok_write800(
    bytes: &[u8],
    characters: &mut [u16],
    count: &mut usize,
    place: &mut usize,
) -> u16
    ensures { Called (Call.write bpi800 bytes.now) characters.old characters.new (count.old ∷ []) (count.new ∷ []) result place.new }
{
    status(
        store_count(writer800::write(bytes, characters), count),
        place,
    )
}

// Reads an 800 record forward, and stores the data's length, the corrected track, the number of changed characters, and that
// of each track.
#[unsafe(no_mangle)]
pub extern "C" fn rindthok_read800_forward(
    characters: &[u16],
    output: &mut [u8],
    size: &mut usize,
    track: &mut usize,
    changes: &mut usize,
    counts: &mut [usize; Code800::TRACKS],
    place: &mut usize,
) -> u16
    ensures { Called (Call.read (at800 false characters.now)) output.old output.new (size.old ∷ track.old ∷ changes.old ∷ counts.old) (size.new ∷ track.new ∷ changes.new ∷ counts.new) result place.new }
{
    let answer = reader800::read_record(characters, false, output);
    status(store_figures(answer, size, track, changes, counts), place)
}

// Reads an 800 record backward, and stores the same.
#[unsafe(no_mangle)]
pub extern "C" fn rindthok_read800_backward(
    characters: &[u16],
    output: &mut [u8],
    size: &mut usize,
    track: &mut usize,
    changes: &mut usize,
    counts: &mut [usize; Code800::TRACKS],
    place: &mut usize,
) -> u16
    ensures { Called (Call.read (at800 true characters.now)) output.old output.new (size.old ∷ track.old ∷ changes.old ∷ counts.old) (size.new ∷ track.new ∷ changes.new ∷ counts.new) result place.new }
{
    let answer = reader800::read_record(characters, true, output);
    status(store_figures(answer, size, track, changes, counts), place)
}

// Stores what reading a record delivers.
pub(crate) fn store_figures(
    answer: Result<Figures, Refusal>,
    size: &mut usize,
    track: &mut usize,
    changes: &mut usize,
    counts: &mut [usize; Code800::TRACKS],
) -> Result<(), Refusal>
    ensures { Stored (told_read answer) (size.old ∷ track.old ∷ changes.old ∷ counts.old) (size.new ∷ track.new ∷ changes.new ∷ counts.new) result }
{
    let figures = answer?;
    *size = figures.length;
    *track = figures.track.unwrap_or(Code800::TRACKS);
    *changes = figures.changes;
    figures.store_counts(counts);
    Ok(())
}
