// Stray bits, in the numbers of a group and in maps.
ghost use Rattle.std.specs.Prelude.{◌||◌, ◌≡◌, ◌+◌, ◌*◌, ◌≤◌, ltb, length};
ghost use Rattle.indexed.specs.List.{index_in};
ghost use Rattle.rectangular.specs.Constants.{numbers_per_group, most_map};
ghost use Rattle.record6250.specs.Read.{first_stray};
ghost use Rattle.record6250.specs.Tape.{numbers_at, stray_numbers};

use crate::reading::Reading;
use rectangular::Code6250;
use slices::{turned_place, union};

// Whether one of the numbers of the group that begins at an index, or the map, has a stray bit. All nine are looked at at once, which takes
// less than half of a search for the first.
fn is_stray(words: &[u16], at: usize, map: u16) -> bool
    requires { at + numbers_per_group ≤ length words.now }
    ensures { result ≡ (stray_numbers (numbers_at words.now at) || ltb most_map map) }
{
    let numbers = &words[at..at + Code6250::NUMBERS];
    union(numbers) > Code6250::MOST_NUMBER || map > Code6250::MOST_MAP
}

// The first group with a stray bit. Where no bit is stray, as a rule, that is seen from all words at once.
pub fn first_stray(words: &[u16], maps: &[u16], backward: bool) -> Option<usize>
    requires { length words.now ≡ numbers_per_group * length maps.now }
    ensures { result ≡ index_in (length maps.now) (first_stray backward words.now maps.now) }
{
    if union(words) <= Code6250::MOST_NUMBER && union(maps) <= Code6250::MOST_MAP {
        return None;
    }
    let groups = maps.len();
    for g in 0..groups {
        let place = turned_place(backward, groups, g);
        if is_stray(words, place * Code6250::NUMBERS, maps[place]) {
            return Some(g);
        }
    }
    None
}

impl<'a> Reading<'a> {
    // The first group of the reading with a stray bit.
    pub fn first_stray(&self) -> Option<usize>
        ensures { result ≡ index_in (length self.now.maps.now) (first_stray self.now.backward self.now.words.now self.now.maps.now) }
    {
        first_stray(self.words, self.maps, self.backward)
    }
}
