// The library for C: each call on slices of numbers, each answer as numbers. A call returns 0 for a
// delivery, or the refusal's number, and stores the refusal's place, or 0. What it promises is one relation for all
// calls, `Called`: the answer, the figures that are stored, the output, and the notice's terms.

#![tactic(auto)]

mod at6250;
mod at800;
mod card;
mod copy;
mod log;
mod order;

ghost use Rattle.std.specs.Prelude.{[], ◌∷◌, ◌≡◌};
ghost use Rattle.answer.specs.Answer.{told, told_written};
ghost use Rattle.rindthok.specs.Called.{status, place_told, Stored};

use answer::Refusal;

// What C gets of an answer whose figures are stored by then: 0 for a delivery, or the refusal's number, and the place. C has numbers only, and a call
// for each direction: the header's interface.
fn status(answer: Result<(), Refusal>, place: &mut usize) -> u16
    ensures number { result ≡ status (told (λ _. []) answer) }
    ensures place { place.new ≡ place_told (told (λ _. []) answer) }
{
    match answer {
        Ok(()) => {
            *place = 0;
            0
        }
        Err(refusal) => {
            *place = refusal.place;
            refusal.reason.number()
        }
    }
}

// Stores what writing a record or a log delivers: the number of its groups, its characters or its bytes.
fn store_count(answer: Result<usize, Refusal>, count: &mut usize) -> Result<(), Refusal>
    ensures { Stored (told_written answer) (count.old ∷ []) (count.new ∷ []) result }
{
    *count = answer?;
    Ok(())
}
