// The walk over the groups of a record: each is judged, and what it corrects to is gathered.
ghost use Rattle.std.specs.Prelude.{◌≡◌, ◌*◌, ◌≤◌, length};
ghost use Rattle.answer.specs.Answer.{refused_for, told_refusal};
ghost use Rattle.judge6250.specs.Told.{told_reason};
ghost use Rattle.rectangular.specs.Constants.{bytes_per_group};
ghost use Rattle.record6250.specs.Fits.{Passes};
ghost use Rattle.record6250.specs.Read.{first_unfit};
ghost use Rattle.scan6250.specs.Told.{told_gathered, groups_answer, bytes_gathered, maps_gathered};

use crate::corrected::unpack;
use answer::Refusal;
use judge6250::errors::Unfit;
use reading6250::{GroupWalker, Reading};
use rectangular::Code6250;
use track_counts::Counts;

// Why a record with such a group is refused.
fn unfit_at(unfit: Unfit, place: usize) -> Refusal
    ensures { told_refusal result ≡ refused_for (told_reason unfit) place }
{
    Refusal {
        reason: unfit.into(),
        place,
    }
}

// Walks the groups up to the first that nothing fits, judges each and gathers its corrected bytes, seven a group, at the front of
// the body, and the map of its changed tracks. It tells how many words are changed, and how many in each track.
pub(crate) fn gather(
    reading: &Reading,
    body: &mut [u8],
    changed: &mut [u16],
) -> Result<(usize, Counts), Refusal>
    requires { Passes reading.now.backward reading.now.words.now reading.now.maps.now × (bytes_per_group * length reading.now.maps.now ≤ length body.old) × (length reading.now.maps.now ≤ length changed.old) }
    ensures told { told_gathered result ≡ groups_answer reading.now.backward reading.now.words.now reading.now.maps.now }
    ensures bytes { body.new ≡ bytes_gathered reading.now.backward reading.now.words.now reading.now.maps.now (first_unfit reading.now.backward reading.now.words.now reading.now.maps.now) body.old }
    ensures maps { changed.new ≡ maps_gathered reading.now.backward reading.now.words.now reading.now.maps.now (first_unfit reading.now.backward reading.now.words.now reading.now.maps.now) changed.old }
{
    // read once, since what the loop stores might else be taken for them
    let maps = reading.maps;
    let backward = reading.backward;
    let mut counts = Counts::none();
    let mut walker = GroupWalker::new(reading.words);
    // document 01 has the walker hold the group at which the walk is, so that it counts them, and no `for` beside it
    while walker.group < maps.len() {
        let g = walker.group;
        let right = walker
            .judged(maps, backward)
            .map_err(|unfit| unfit_at(unfit, g))?;
        let at = g * Code6250::BYTES;
        unpack(&mut body[at..], right.group.tracks);
        changed[g] = right.changed;
        counts = counts.with(right.changed);
        walker.advance();
    }
    Ok((counts.sum(), counts))
}
