// Judging a whole record at 6250 bits per inch without writing (document 01, "The 6250 record" and "Where a call is
// turned down"). Its corrected bytes and the tracks that are changed in each group are gathered into slices that the caller lends,
// and what it comes to is told: every call that reads a record does it by this.

#![tactic(auto)]

mod corrected;
mod gather;
mod judge;

pub use judge::judge_record;
pub use reading6250::Reading;
use rectangular::Code6250;
use track_counts::Counts;

// A record of so few groups is short: who judges one lends it small arrays, since an array is cleared.
pub const SHORT: usize = 64;
// Its groups have at most so many bytes.
pub const SHORT_BYTES: usize = SHORT * Code6250::BYTES;
// Any other record: so many groups, and so many bytes, at most.
pub const LONG: usize = Code6250::MOST_GROUPS;

pub const LONG_BYTES: usize = Code6250::MOST_BODY;

// The figures of a delivery: the data's length, how many words of the reading differ from the record, and how many in each track.
#[derive(Clone, Copy)]
pub struct Figures {
    pub length: usize,
    pub changes: usize,
    pub counts: Counts,
}
