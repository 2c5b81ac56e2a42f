// Errors from the two syndromes and the pointed tracks (document 000, theorems 1 and 2; document 02, "2.3"). Nothing
// here knows the tracks' values, nor how they are held.
ghost use Rattle.std.specs.Prelude.{◌≡◌, [], ◌∷◌, ◌^◌, ◌<◌};
ghost use Rattle.indexed.specs.List.{below, index_in};
ghost use Rattle.rectangular.specs.Constants.{feedback, exponent, tracks};
ghost use Rattle.rectangular.specs.Correction.{pointed_tracks};
ghost use Rattle.rectangular.specs.Relied.{relied_on};
ghost use Rattle.rectangular.specs.Syndrome.{weighed, second_error, errors_in, first_accounting, one_error, two_errors, errors_of};
ghost use Rattle.judge6250.specs.Told.{told_errors, told_located, told_reason};

use answer::Reason;
use products::{backward_power, erasure_product, forward_power};
use rectangular::Code6250;

// An error in each of two tracks: `error` in the first, `other` in the second. Either may be 0, which changes nothing where it is
// added: an `Option` would be a case that no sum has.
#[derive(Clone, Copy)]
pub struct ErrorPair {
    pub first: usize,
    pub error: u8,
    pub second: usize,
    pub other: u8,
}

// Why no group is told: three or more tracks are pointed, or no errors that may be account for the syndromes.
#[derive(Clone, Copy, PartialEq, Eq)]
pub enum Unfit {
    ManyPointed,
    NoGroup,
}

impl From<Unfit> for Reason {
    ghost from_gives = { λ unfit reason. reason ≡ told_reason unfit };

    fn from(unfit: Unfit) -> Reason {
        match unfit {
            Unfit::ManyPointed => Reason::ManyPointed,
            Unfit::NoGroup => Reason::NoGroup,
        }
    }
}

// What an error in a track leaves in S2 (equation (17)). A track is the number by which the code shifts, and four contracts here ask
// that it is below 9: a type round it is no plainer, since it would be opened at each shift.
fn weight(track: usize, error: u8) -> u8
    requires { track < tracks }
    ensures { result ≡ weighed 8 feedback track error }
{
    if track < Code6250::PARITY_TRACK {
        forward_power(track, error)
    } else {
        0
    }
}

// The first track in which an error S1 accounts for S2 (equations (16) and (17)), if there is one. The
// register holds T^k S1 for track k, one shift a track; in P the error leaves nothing in S2.
fn located(s1: u8, s2: u8) -> Option<usize>
    ensures { result ≡ index_in tracks (first_accounting 8 feedback s1 s2 (below tracks)) }
{
    let mut code = Code6250 { register: s1 };
    for track in 0..Code6250::PARITY_TRACK {
        if code.register == s2 {
            return Some(track);
        }
        code = code.shifted();
    }
    (s2 == 0).then_some(Code6250::PARITY_TRACK)
}

// The same, with a track that mostly is the one and so is tried first: no two tracks account for S2, unless S1 is 0.
fn located_likely(likely: usize, s1: u8, s2: u8) -> Option<usize>
    requires { likely < tracks }
    ensures { result ≡ index_in tracks (first_accounting 8 feedback s1 s2 (below tracks)) }
{
    if s1 != 0 && weight(likely, s1) == s2 {
        return Some(likely);
    }
    located(s1, s2)
}

// One error, S1, in a track, and none in P beside it.
fn one(track: usize, s1: u8) -> ErrorPair
    ensures { told_errors (Ok result) ≡ errors_in track s1 8 0 }
{
    ErrorPair {
        first: track,
        error: s1,
        second: Code6250::PARITY_TRACK,
        other: 0,
    }
}

// One track may be wrong: the one that was located, if there is one.
fn anywhere(located: Option<usize>, s1: u8) -> Result<ErrorPair, Unfit>
    ensures { told_errors result ≡ told_located located s1 }
{
    let track = located.ok_or(Unfit::NoGroup)?;
    Ok(one(track, s1))
}

// One track is pointed and relied on: it alone may be wrong, and the check equation must hold then.
fn pointed_once(track: usize, s1: u8, s2: u8) -> Result<ErrorPair, Unfit>
    requires { track < tracks }
    ensures { told_errors result ≡ one_error 8 feedback s1 s2 (track ∷ []) }
{
    if weight(track, s1) == s2 {
        Ok(one(track, s1))
    } else {
        Err(Unfit::NoGroup)
    }
}

// The error in the second of two pointed tracks (equation (21)): for P the matrix is the identity.
fn second_error(first: usize, second: usize, s1: u8, s2: u8) -> u8
    requires { (first < second) × (second < tracks) }
    ensures { result ≡ second_error 8 feedback exponent first second s1 s2 }
{
    let both = s1 ^ backward_power(first, s2);
    let distance = second - first;
    if second < Code6250::PARITY_TRACK {
        erasure_product(distance, both)
    } else {
        both
    }
}

// Two tracks are pointed: one group always fits.
fn pointed_twice(first: usize, second: usize, s1: u8, s2: u8) -> ErrorPair
    requires { (first < second) × (second < tracks) }
    ensures { told_errors (Ok result) ≡ two_errors 8 feedback exponent s1 s2 first second }
{
    let other = second_error(first, second, s1, s2);
    ErrorPair {
        first,
        error: s1 ^ other,
        second,
        other,
    }
}

// The errors by the tracks that are pointed, bit i of the map for track i, and whether all words are legal.
pub fn errors_of(s1: u8, s2: u8, pointers: u16, legal: bool) -> Result<ErrorPair, Unfit>
    requires { pointers < 2 ^ tracks }
    ensures { told_errors result ≡ errors_of 8 feedback exponent s1 s2 (pointed_tracks tracks (relied_on legal pointers)) }
{
    if pointers == 0 {
        return anywhere(located(s1, s2), s1);
    }
    let first = u16::trailing_zeros(pointers) as usize;
    let others = pointers & (pointers - 1);
    if others == 0 {
        if legal {
            return anywhere(located_likely(first, s1, s2), s1);
        }
        return pointed_once(first, s1, s2);
    }
    if others & (others - 1) == 0 {
        let second = u16::trailing_zeros(others) as usize;
        return Ok(pointed_twice(first, second, s1, s2));
    }
    Err(Unfit::ManyPointed)
}
