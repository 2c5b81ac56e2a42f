// How a group that was read is judged: which group of the code fits it (document 000, theorems 1 and 2; document 02,
// "2.3").
ghost use Rattle.std.specs.Prelude.{◌&&◌, ◌≡◌, ◌⊎◌, ◌^◌, ◌<◌, eqb, get_or};
ghost use Rattle.indexed.specs.List.{tabulate};
ghost use Rattle.register.specs.Xor.{◌⊕◌};
ghost use Rattle.rectangular.specs.Constants.{feedback, exponent, tracks};
ghost use Rattle.rectangular.specs.Correction.{pointed_tracks, error_at, judged, changed_map};
ghost use Rattle.rectangular.specs.Relied.{relied_on};
ghost use Rattle.group6250.specs.Packed.{values_of};
ghost use Rattle.judge6250.specs.Told.{told_judged, told_changed, changed_by, mark_at};

use crate::errors::{ErrorPair, Unfit, errors_of};
use group6250::group::{Group, parity, placed};
use products::check_syndrome;
use rectangular::Code6250;

// The group that fits, and the tracks in which it differs from what was read.
#[derive(Clone, Copy)]
pub struct Correction {
    pub group: Group,
    pub changed: u16,
}

// The bit of a track that an error changes.
fn mark(track: usize, error: u8) -> u16
    requires { track < tracks }
    ensures { result ≡ mark_at track error }
{
    if error == 0 { 0 } else { 1 << track }
}

// The group with an error taken off each of two tracks, of which the second has none if it is not
// behind the first.
fn corrected(group: Group, pair: ErrorPair) -> Correction
    requires { (pair.first < tracks) × (pair.second < tracks) × ((pair.first < pair.second) ⊎ (pair.other ≡ 0)) }
    ensures values { values_of result.group ≡ tabulate tracks (λ k. get_or (values_of group) k 0 ⊕ error_at pair.first pair.error k ⊕ error_at pair.second pair.other k) }
    ensures changed { result.changed ≡ changed_map tracks (values_of group) (values_of result.group) }
{
    let mut parity = group.parity;
    if pair.first == Code6250::PARITY_TRACK {
        parity = parity ^ pair.error;
    }
    if pair.second == Code6250::PARITY_TRACK {
        parity = parity ^ pair.other;
    }
    Correction {
        group: Group {
            tracks: group.tracks ^ placed(pair.first, pair.error) ^ placed(pair.second, pair.other),
            parity,
        },
        changed: mark(pair.first, pair.error) + mark(pair.second, pair.other),
    }
}

// No error and no track pointed, as most groups have it, is seen at once.
fn is_clean(s1: u8, s2: u8, pointers: u16) -> bool
    ensures { result ≡ (eqb s1 0 && eqb s2 0 && eqb pointers 0) }
{
    s1 == 0 && s2 == 0 && pointers == 0
}

// Judges a group by the tracks that are pointed, bit i of the map for track i, and whether all words are legal.
pub fn judge(group: Group, pointers: u16, legal: bool) -> Result<Correction, Unfit>
    requires { pointers < 2 ^ tracks }
    ensures told { told_judged result ≡ judged 8 feedback exponent (λ k. get_or (values_of group) k 0) (pointed_tracks tracks (relied_on legal pointers)) }
    ensures changed { told_changed result ≡ changed_by (values_of group) (told_judged result) }
{
    let s1 = parity(group.tracks) ^ group.parity;
    let s2 = check_syndrome(group.tracks);
    if is_clean(s1, s2, pointers) {
        return Ok(Correction { group, changed: 0 });
    }
    let pair = errors_of(s1, s2, pointers, legal)?;
    Ok(corrected(group, pair))
}
