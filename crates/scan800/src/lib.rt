// Judging a whole record at 800 bits per inch without writing (document 01, "The 800 record" and "Where a call is turned down"):
// each check in its order, told whether space is enough, and, from one pass over the characters, what the record comes to.

#![tactic(auto)]

mod gather;
mod judge;
mod parity;
mod passed;
mod reading;

ghost use Rattle.std.specs.Prelude.{◌≡◌};
ghost use Rattle.record800.specs.Read.{track_changes};
ghost use Rattle.scan800.specs.Told.{track_told};

use cyclic::Code800;
pub use judge::{data_length, judge_record};
pub use passed::Passed;
pub use reading::Reading;

// The figures of a delivery: the data's length, the corrected track, none if nothing differs, and how many
// characters of the reading differ from the record. They tell the changes of each track too.
#[derive(Clone, Copy)]
pub struct Figures {
    pub length: usize,
    pub track: Option<usize>,
    pub changes: usize,
}

impl Figures {
    // The changes of each track, track 0 first: all of them are in the corrected one.
    pub fn counts(self) -> [usize; Code800::TRACKS]
        ensures { result ≡ track_changes (track_told self.track) self.changes }
    {
        let mut counts = [0; Code800::TRACKS];
        self.store_counts(&mut counts);
        counts
    }

    // Stores the changes of each track, in the caller's own array, which is faster than one that is handed back (decision D34). Any track is
    // answered.
    pub fn store_counts(self, counts: &mut [usize; Code800::TRACKS])
        ensures { counts.new ≡ track_changes (track_told self.track) self.changes }
    {
        *counts = [0; Code800::TRACKS];
        if let Some(track) = self.track {
            if track < Code800::TRACKS {
                counts[track] = self.changes;
            }
        }
    }
}
