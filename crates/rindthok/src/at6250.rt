// Records at 6250 for C.
ghost use Rattle.std.specs.Prelude.{true, false, [], ◌∷◌};
ghost use Rattle.scan6250.specs.Told.{told_read};
ghost use Rattle.terms.specs.Call as Call;
ghost use Rattle.terms.specs.Reading.{bpi6250, at6250};
ghost use Rattle.rindthok.specs.Called.{Stored, Called};

use crate::{status, store_count};
use answer::Refusal;
use reader6250::Figures;
use rectangular::Code6250;

// Writes a 6250 record, and stores the number of its groups.
#[unsafe(no_mangle)]
pub extern "C" fn rindthok_write6250(
    bytes: &[u8],
    words: &mut [u16],
    groups: &mut usize,
    place: &mut usize,
) -> u16
    ensures { Called (Call.write bpi6250 bytes.now) words.old words.new (groups.old ∷ []) (groups.new ∷ []) result place.new }
{
    status(store_count(writer6250::write(bytes, words), groups), place)
}

// Reads a 6250 record forward, and stores the data's length, the number of changed words, and that of each track.
#[unsafe(no_mangle)]
pub extern "C" fn rindthok_read6250_forward(
    words: &[u16],
    maps: &[u16],
    output: &mut [u8],
    size: &mut usize,
    changes: &mut usize,
    counts: &mut [usize; Code6250::TRACKS],
    place: &mut usize,
) -> u16
    ensures { Called (Call.read (at6250 false words.now maps.now)) output.old output.new (size.old ∷ changes.old ∷ counts.old) (size.new ∷ changes.new ∷ counts.new) result place.new }
{
    let answer = reader6250::read_record(words, maps, false, output);
    status(store_figures(answer, size, changes, counts), place)
}

// Reads a 6250 record backward, and stores the same.
#[unsafe(no_mangle)]
pub extern "C" fn rindthok_read6250_backward(
    words: &[u16],
    maps: &[u16],
    output: &mut [u8],
    size: &mut usize,
    changes: &mut usize,
    counts: &mut [usize; Code6250::TRACKS],
    place: &mut usize,
) -> u16
    ensures { Called (Call.read (at6250 true words.now maps.now)) output.old output.new (size.old ∷ changes.old ∷ counts.old) (size.new ∷ changes.new ∷ counts.new) result place.new }
{
    let answer = reader6250::read_record(words, maps, true, output);
    status(store_figures(answer, size, changes, counts), place)
}

// Stores what reading a record delivers.
fn store_figures(
    answer: Result<Figures, Refusal>,
    size: &mut usize,
    changes: &mut usize,
    counts: &mut [usize; Code6250::TRACKS],
) -> Result<(), Refusal>
    ensures { Stored (told_read answer) (size.old ∷ changes.old ∷ counts.old) (size.new ∷ changes.new ∷ counts.new) result }
{
    let figures = answer?;
    *size = figures.length;
    *changes = figures.changes;
    *counts = figures.counts.numbers();
    Ok(())
}
