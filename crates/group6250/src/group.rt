// One group of the nine-track code.
ghost use Rattle.std.specs.Prelude.{◌≡◌, ◌<◌, ◌≤◌, length, get_or, take};
ghost use Rattle.indexed.specs.List.{tabulate};
ghost use Rattle.rectangular.specs.Constants.{feedback, tracks};
ghost use Rattle.rectangular.specs.Group as code;
ghost use Rattle.group6250.specs.Packed.{bytes_of, values_of, parity_byte, placed_at};

use generator::part;
use rectangular::Code6250;

// The track values of a group: tracks 0 to 7, track j in bits 8j to 8j + 7, and the parity track.
#[derive(Clone, Copy)]
pub struct Group {
    pub tracks: u64,
    pub parity: u8,
}

impl Group {
    // The value of a track. A track is an index below nine here and in `placed`, as the loops count it: a type of its own would be made anew
    // for each.
    pub fn value(self, track: usize) -> u8
        requires { track < tracks }
        ensures { result ≡ get_or (values_of self) track 0 }
    {
        if track < Code6250::PARITY_TRACK {
            ((self.tracks >> (8 * track)) % 256) as u8
        } else {
            self.parity
        }
    }
}

// A value where it stands among the tracks 0 to 7; that of the parity track stands elsewhere.
pub fn placed(track: usize, value: u8) -> u64
    requires { track < tracks }
    ensures { result ≡ placed_at track value }
{
    if track < Code6250::PARITY_TRACK {
        (value as u64) << (8 * track)
    } else {
        0
    }
}

// The exclusive-or of the eight track bytes.
#[tactic(auto, using(crate::proofs::Packed::folded))]
pub fn parity(tracks: u64) -> u8
    ensures { result ≡ parity_byte tracks }
{
    let half = tracks ^ (tracks >> 32);
    let quarter = half ^ (half >> 16);
    let folded = (quarter ^ (quarter >> 8)) % 256;
    folded as u8
}

// The tracks that are written from the seven information bytes in front, the first of which is B7: the sum of
// what each adds.
fn tracks(bytes: &[u8]) -> u64
    requires { 7 ≤ length bytes.now }
    ensures { bytes_of result ≡ tabulate 8 (code.column 8 (code.character 8 feedback (take 7 bytes.now))) }
{
    let mut sum = 0;
    for k in 0..Code6250::BYTES {
        sum ^= part(k, bytes[Code6250::BYTES - 1 - k]);
    }
    sum
}

// The group that is written from the seven information bytes in front.
pub fn written(bytes: &[u8]) -> Group
    requires { 7 ≤ length bytes.now }
    ensures { values_of result ≡ code.group 8 feedback (take 7 bytes.now) }
{
    let tracks = tracks(bytes);
    Group {
        tracks,
        parity: parity(tracks),
    }
}
