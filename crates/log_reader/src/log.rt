// A log whose length suits its groups, and what it reads back to.
ghost use Rattle.std.specs.Prelude.{true, cond, ◌++◌, ◌≡◌, ◌+◌, ◌*◌, ◌<◌, ◌≤◌, ◌&&◌, eqb, leb, ltb, length, drop, is_some, IfSome};
ghost use Rattle.rectangular.specs.Constants.{most_map};
ghost use Rattle.sense_log.specs.Back.{group_bit, length_suits, maps_suit, content_suits, maps_of};
ghost use Rattle.sense_log.specs.Log.{bit_map_length, track_marks};
ghost use Rattle.sense_log.specs.Pair.{pair_at};
ghost use Rattle.track_counts.specs.Counts.{counts_told};

use crate::bits::{spare_clear, standing_bits};
use rectangular::Code6250;
use sense_log::{bit_map_length, pair_at};
use track_counts::Counts;

// Whether there are 1 to 586 groups, and the length suits them and their bits.
fn length_suits(groups: usize, log: &[u8]) -> bool
    ensures { result ≡ length_suits groups log.now }
{
    if groups == 0 || groups > Code6250::MOST_GROUPS {
        return false;
    }
    let front = bit_map_length(groups);
    log.len() >= front && log.len() == front + 2 * standing_bits(log, groups)
}

// Whether a map is one that a reading can have: neither 0 nor above 511.
fn map_suits(map: u16) -> bool
    ensures { result ≡ ltb 0 map && leb map most_map }
{
    0 < map && map <= Code6250::MOST_MAP
}

// A log and its group count, which its length suits.
#[derive(Clone, Copy)]
pub(crate) struct Log<'a> {
    groups: usize,
    bytes: &'a [u8],
    ghost suits: { length_suits groups bytes.now ≡ true },
}

impl<'a> Log<'a> {
    // The log, if its length suits so many groups.
    pub(crate) fn new(groups: usize, bytes: &'a [u8]) -> Option<Log<'a>>
        ensures some { is_some result ≡ length_suits groups bytes.entry.now }
        ensures as_lent { IfSome result (λ log. (log.groups ≡ groups) × (log.bytes ≡ bytes.entry)) }
    {
        if length_suits(groups, bytes) {
            Some(Log { groups, bytes })
        } else {
            None
        }
    }

    // The bit of a group.
    fn group_bit(&self, g: usize) -> u8
        requires { g < self.now.groups }
        ensures { result ≡ group_bit self.now.bytes.now g }
    {
        (self.bytes[g / 8] >> (g % 8)) % 2
    }

    // The map of a group whose bit this is, where the next of the maps stands from an index on: zero if the bit does not stand.
    fn map_of_group(&self, bit: u8, at: usize) -> u16
        requires { 0 < bit → at + 1 < length self.now.bytes.now }
        ensures { result ≡ cond (eqb bit 0) 0 (pair_at self.now.bytes.now at) }
    {
        if bit == 0 { 0 } else { pair_at(self.bytes, at) }
    }

    // Whether none of the maps is 0 or above 511.
    fn maps_suit(&self) -> bool
        ensures { result ≡ maps_suit self.now.groups self.now.bytes.now }
    {
        let front = bit_map_length(self.groups);
        let count = (self.bytes.len() - front) / 2;
        for k in 0..count {
            if !map_suits(pair_at(self.bytes, front + 2 * k)) {
                return false;
            }
        }
        true
    }

    // Whether the spare bits are zero and each map is one that a reading can have.
    pub(crate) fn content_suits(&self) -> bool
        ensures { result ≡ content_suits self.now.groups self.now.bytes.now }
    {
        spare_clear(self.bytes, self.groups) && self.maps_suit()
    }

    // Stores the map of each group: zero, or, where its bit stands, the next of those in the log. Counts the marks of each track.
    fn deliver_marked(&self, maps: &mut [u16]) -> Counts
        requires { self.now.groups ≤ length maps.old }
        ensures maps { maps.new ≡ maps_of self.now.groups self.now.bytes.now ++ drop self.now.groups maps.old }
        ensures marks { counts_told result ≡ track_marks (maps_of self.now.groups self.now.bytes.now) }
    {
        let mut marks = Counts::none();
        let mut at = bit_map_length(self.groups);
        for g in 0..self.groups {
            let bit = self.group_bit(g);
            let map = self.map_of_group(bit, at);
            maps[g] = map;
            marks = marks.with(map);
            at += 2 * (bit as usize);
        }
        marks
    }

    // Stores the map of each group, and counts the marks of each track. Most logs are of records in which nothing was changed, and that is
    // seen by the length.
    pub(crate) fn deliver(&self, maps: &mut [u16]) -> Counts
        requires { self.now.groups ≤ length maps.old }
        ensures maps { maps.new ≡ maps_of self.now.groups self.now.bytes.now ++ drop self.now.groups maps.old }
        ensures marks { counts_told result ≡ track_marks (maps_of self.now.groups self.now.bytes.now) }
    {
        if self.bytes.len() == bit_map_length(self.groups) {
            maps[..self.groups].fill(0);
            return Counts::none();
        }
        self.deliver_marked(maps)
    }
}
