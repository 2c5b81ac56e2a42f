// A reading that is lent, from the record's beginning.
ghost use Rattle.std.specs.Prelude.{◌≡◌, ◌<◌, length, get_or};
ghost use Rattle.indexed.specs.List.{index_in};
ghost use Rattle.record800.specs.Read.{picture, first_stray};

use cyclic::Code800;
use slices::{turned_place, union};

// A reading: its characters as they came, which are last first where it passed the head backward.
#[derive(Clone, Copy)]
pub struct Reading<'a> {
    pub characters: &'a [u16],
    pub backward: bool,
}

impl Reading<'_> {
    // Character k of the forward picture.
    pub fn character(&self, k: usize) -> u16
        requires { k < length self.now.characters.now }
        ensures { result ≡ get_or (picture self.now.backward self.now.characters.now) k 0 }
    {
        self.characters[turned_place(self.backward, self.characters.len(), k)]
    }

    // The first character above 511 of the forward picture. Where none is, as a rule, that is seen from all characters
    // at once.
    pub fn first_stray(&self) -> Option<usize>
        ensures { result
            ≡ index_in (length self.now.characters.now) (first_stray self.now.backward self.now.characters.now) }
    {
        if union(self.characters) <= Code800::MOST_CHARACTER {
            return None;
        }
        for k in 0..self.characters.len() {
            if self.character(k) > Code800::MOST_CHARACTER {
                return Some(k);
            }
        }
        None
    }
}
