// How a group lies among the words of a record: nine words, tracks 0 to 8.
ghost use Rattle.std.specs.Prelude.{◌≡◌, ◌++◌, ◌≤◌, length, drop};
ghost use Rattle.rectangular.specs.Constants.{numbers_per_group};
ghost use Rattle.group6250.specs.Packed.{values_of};
ghost use Rattle.record6250.specs.Tape.{numbers_from};
ghost use Rattle.record6250.specs.Track.{words_of};

use group_code::word;
use group6250::group::Group;
use rectangular::Code6250;

// Stores a group's nine words at the front. On tape track 8 has the complement of document 000's (document 02, "2.2"). The
// last word is stored first, which is measured to be faster (decision D20).
pub(crate) fn store(words: &mut [u16], group: Group)
    requires { numbers_per_group ≤ length words.old }
    ensures { words.new ≡ numbers_from (words_of (values_of group)) ++ drop numbers_per_group words.old }
{
    let recorded = Group {
        tracks: group.tracks,
        parity: group.parity ^ 255,
    };
    for j in (0..Code6250::NUMBERS).rev() {
        words[j] = word(recorded.value(j));
    }
}
