// A group as it is received: the values of its nine words, and which of them are illegal.
ghost use Rattle.std.specs.Prelude.{◌≡◌, ℕ, ◌+◌, ◌<◌, ◌≤◌, length, get_or};
ghost use Rattle.indexed.specs.List.{tabulate};
ghost use Rattle.rectangular.specs.Constants.{tracks, numbers_per_group};
ghost use Rattle.group6250.specs.Packed.{values_of};
ghost use Rattle.record6250.specs.Group.{illegal_map};
ghost use Rattle.record6250.specs.Tape.{numbers_at, words_from};
ghost use Rattle.record6250.specs.Track.{value_on};

use group_code::readings;
use group6250::group::{Group, placed};
use rectangular::Code6250;

// The group, and the tracks with an illegal word.
#[derive(Clone, Copy)]
pub(crate) struct Received {
    pub group: Group,
    pub illegal: u16,
}

// The tracks with an illegal word among the nine from an index on.
fn illegal_tracks(words: &[u16], at: usize, backward: bool) -> u16
    requires { (at + numbers_per_group ≤ length words.now) × ((k : ℕ) → get_or words.now k 0 < 1024) }
    ensures { result ≡ illegal_map (words_from backward (numbers_at words.now at)) }
{
    let table = readings(backward);
    let mut illegal: u16 = 0;
    for k in 0..Code6250::NUMBERS {
        let word = words[at + k] as usize;
        illegal += (table[word] / 256) << k;
    }
    illegal
}

// Receives the nine words from an index on, each by one look-up. On tape track 8 has the complement of document 000's
// (document 02, "2.2"). Illegal words are rare: all are looked for at once.
pub(crate) fn receive(words: &[u16], at: usize, backward: bool) -> Received
    requires { (at + numbers_per_group ≤ length words.now) × ((k : ℕ) → get_or words.now k 0 < 1024) }
    ensures values { values_of result.group ≡ tabulate tracks (λ k. value_on k (get_or (words_from backward (numbers_at words.now at)) k 0)) }
    ensures illegal { result.illegal ≡ illegal_map (words_from backward (numbers_at words.now at)) }
{
    let table = readings(backward);
    let mut tracks: u64 = 0;
    let mut parity: u8 = 0;
    let mut seen: u16 = 0;
    for k in 0..Code6250::NUMBERS {
        let word = words[at + k] as usize;
        let read = table[word];
        parity = (read % 256) as u8;
        tracks += placed(k, parity);
        seen |= read;
    }
    let group = Group {
        tracks,
        parity: parity ^ 255,
    };
    if seen < 256 {
        return Received { group, illegal: 0 };
    }
    Received {
        group,
        illegal: illegal_tracks(words, at, backward),
    }
}
