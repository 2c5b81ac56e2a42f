// Copying an 800 record onto a 6250 one, for C (document 02, request 2.6).
ghost use Rattle.std.specs.Prelude.{true, false, [], ◌∷◌, ◌++◌};
ghost use Rattle.copier800.specs.Told.{told_copied};
ghost use Rattle.terms.specs.Call as Call;
ghost use Rattle.rindthok.specs.Called.{Stored, Called};

use crate::at800::store_figures;
use crate::status;
use answer::Refusal;
use copier800::Copied;
use cyclic::Code800;

// Copies an 800 record that was read forward, and stores the figures of the reading and the number of groups.
#[unsafe(no_mangle)]
pub extern "C" fn rindthok_copy800_forward(
    characters: &[u16],
    words: &mut [u16],
    size: &mut usize,
    track: &mut usize,
    changes: &mut usize,
    counts: &mut [usize; Code800::TRACKS],
    groups: &mut usize,
    place: &mut usize,
) -> u16
    ensures { Called (Call.copy false characters.now) words.old words.new (size.old ∷ track.old ∷ changes.old ∷ counts.old ++ (groups.old ∷ [])) (size.new ∷ track.new ∷ changes.new ∷ counts.new ++ (groups.new ∷ [])) result place.new }
{
    let answer = copier800::copy_record(characters, false, words);
    status(
        store_copied(answer, size, track, changes, counts, groups),
        place,
    )
}

// Copies an 800 record that was read backward, and stores the same.
#[unsafe(no_mangle)]
pub extern "C" fn rindthok_copy800_backward(
    characters: &[u16],
    words: &mut [u16],
    size: &mut usize,
    track: &mut usize,
    changes: &mut usize,
    counts: &mut [usize; Code800::TRACKS],
    groups: &mut usize,
    place: &mut usize,
) -> u16
    ensures { Called (Call.copy true characters.now) words.old words.new (size.old ∷ track.old ∷ changes.old ∷ counts.old ++ (groups.old ∷ [])) (size.new ∷ track.new ∷ changes.new ∷ counts.new ++ (groups.new ∷ [])) result place.new }
{
    let answer = copier800::copy_record(characters, true, words);
    status(
        store_copied(answer, size, track, changes, counts, groups),
        place,
    )
}

// Stores what copying a record delivers: the figures of the reading as a reader's are, and the number of groups.
fn store_copied(
    answer: Result<Copied, Refusal>,
    size: &mut usize,
    track: &mut usize,
    changes: &mut usize,
    counts: &mut [usize; Code800::TRACKS],
    groups: &mut usize,
) -> Result<(), Refusal>
    ensures { Stored (told_copied answer) (size.old ∷ track.old ∷ changes.old ∷ counts.old ++ (groups.old ∷ [])) (size.new ∷ track.new ∷ changes.new ∷ counts.new ++ (groups.new ∷ [])) result }
{
    let copied = answer?;
    *groups = copied.groups;
    store_figures(Ok(copied.figures), size, track, changes, counts)
}
