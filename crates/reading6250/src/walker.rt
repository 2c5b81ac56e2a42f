// A reading walks the lent words group by group, in tape order (document 01, "The 6250 record"), and each group is received and
// judged.
ghost use Rattle.std.specs.Prelude.{true, ◌≡◌, ◌+◌, ◌<◌, length};
ghost use Rattle.judge6250.specs.Told.{told_judged, told_changed};
ghost use Rattle.rectangular.specs.Constants.{most_groups};
ghost use Rattle.record6250.specs.Fits.{Passes};
ghost use Rattle.record6250.specs.Group.{is_corrected};
ghost use Rattle.record6250.specs.Read.{judgement, changed_tracks};

use crate::received::receive;
use judge6250::errors::Unfit;
use judge6250::judge::{Correction, judge};
use rectangular::Code6250;
use slices::turned_place;

// The lent words, and the group at which the walk is.
#[derive(Clone, Copy)]
pub struct GroupWalker<'a> {
    pub words: &'a [u16],
    pub group: usize,
}

impl<'a> GroupWalker<'a> {
    // The walk begins at the first group.
    pub fn new(words: &'a [u16]) -> GroupWalker<'a>
        ensures { (result.words ≡ words.entry) × (result.group ≡ 0) }
    {
        GroupWalker { words, group: 0 }
    }

    // Judges the group at which the walk is, by the maps and the direction of its reading.
    pub fn judged(&self, maps: &[u16], backward: bool) -> Result<Correction, Unfit>
        requires { Passes backward self.now.words.now maps.now × (self.now.group < length maps.now) }
        ensures told { told_judged result ≡ judgement backward self.now.words.now maps.now self.now.group }
        ensures changed { is_corrected (told_judged result) ≡ true → told_changed result ≡ changed_tracks backward self.now.words.now maps.now self.now.group }
    {
        let place = turned_place(backward, maps.len(), self.group);
        let received = receive(self.words, place * Code6250::NUMBERS, backward);
        let illegal = received.illegal;
        let pointed = maps[place] | illegal;
        let right = judge(received.group, pointed, illegal == 0)?;
        Ok(Correction {
            group: right.group,
            changed: right.changed | illegal,
        })
    }

    // The walk goes on by one group.
    pub fn advance(&mut self)
        requires { self.old.group < most_groups }
        ensures { (self.new.words ≡ self.old.words) × (self.new.group ≡ self.old.group + 1) }
    {
        self.group += 1;
    }
}
