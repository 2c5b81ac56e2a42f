// The nine tracks, tried on the sums.
ghost use Rattle.std.specs.Prelude.{cond, ◌&&◌, List, [], ◌∷◌, ◌++◌, ◌≡◌, ℕ, ◌*◌, ◌^◌, ◌<◌, eqb, length, IfOk};
ghost use Rattle.indexed.specs.List.{below, keep};
ghost use Rattle.register.specs.Shift.{shifts};
ghost use Rattle.register.specs.Xor.{◌⊕◌};
ghost use Rattle.cyclic.specs.Constants.{feedback, offset, tracks};
ghost use Rattle.judge800.specs.Told.{one_found, reason_of};

use answer::{Reason, Refusal};
use cyclic::{Code800, shift};

// Why no single track accounts for a reading: none does, or so many do, the first of which is told.
#[derive(Clone, Copy, PartialEq, Eq)]
pub enum Unlocated {
    NoRecord,
    SeveralRecords { count: usize, first: usize },
}

// The refusal that a call gives for it: it has no place.
impl From<Unlocated> for Refusal {
    ghost from_gives = { λ unlocated refusal. refusal ≡ record { reason = reason_of unlocated; place = 0 } };

    fn from(unlocated: Unlocated) -> Refusal {
        match unlocated {
            Unlocated::NoRecord => Reason::NoRecord.into(),
            Unlocated::SeveralRecords { .. } => Reason::SeveralRecords.into(),
        }
    }
}

// Whether the check character and the longitudinal character of a candidate hold.
pub fn agree(check: u16, longitudinal: u16, changed: u16) -> bool
    ensures { result ≡ (eqb check offset && eqb longitudinal changed) }
{
    check == Code800::OFFSET && longitudinal == changed
}

// What is found once one track more holds: the first is the one, and a second is one too many.
fn joined(found: Result<usize, Unlocated>, track: usize) -> Result<usize, Unlocated>
    requires { (l : List ℕ) × (found ≡ one_found l) × (length l < tracks) }
    ensures { (l : List ℕ) → found ≡ one_found l → result ≡ one_found (l ++ track ∷ []) }
{
    let (count, first) = match found {
        Err(Unlocated::NoRecord) => return Ok(track),
        Ok(first) => (1, first),
        Err(Unlocated::SeveralRecords { count, first }) => (count, first),
    };
    Err(Unlocated::SeveralRecords {
        count: count + 1,
        first,
    })
}

// Tries the nine tracks on the sums: the check register, E, the exclusive-or of all characters, and the
// parity of the number of wrong ones.
pub fn located(check: u16, pattern: u16, longitudinal: u16, odd: u16) -> Result<usize, Unlocated>
    requires { (pattern < 512) × (odd < 2) }
    ensures found { result
        ≡ one_found (keep (λ j. eqb (check ⊕ shifts 9 feedback j pattern) offset && eqb longitudinal (odd * 2 ^ j)) (below tracks)) }
    ensures within { IfOk result (λ track. track < tracks) }
{
    let mut found = Err(Unlocated::NoRecord);
    let mut shifted = pattern;
    for j in 0..Code800::TRACKS {
        if agree(check ^ shifted, longitudinal, odd << j) {
            found = joined(found, j);
        }
        shifted = shift(shifted);
    }
    found
}
