// Nine words and pointer maps moved by a way, with what is refused. One routine serves both directions, each with its own way.
ghost use Rattle.std.specs.Prelude.{[], ◌≡◌, IfOk, length};
ghost use Rattle.answer.specs.Answer.{told, output_after};
ghost use Rattle.track_order.specs.Order.{arranged, arranged_map};
ghost use Rattle.track_order.specs.Moved.{words_answer, map_answer};
ghost use Rattle.head_order.specs.Told.{told_stored, told_map};

use answer::{Reason, Refusal};
use arrangement::Way;
use rectangular::Code6250;

// Moves nine words.
pub fn words(way: &Way, source: &[u16], target: &mut [u16]) -> Result<(), Refusal>
    ensures answer { told_stored result [] ≡ words_answer source.now (length target.old) }
    ensures output { target.new ≡ output_after (told_stored result []) (arranged way.now source.now) target.old }
{
    let words = checked(source, target.len())?;
    way.arrange(words, target);
    Ok(())
}

// Moves a pointer map.
pub fn map(way: &Way, map: u16) -> Result<u16, Refusal>
    ensures { told_map result ≡ map_answer (arranged_map way.now) map }
{
    if map > Code6250::MOST_MAP {
        return Err(Reason::StrayBits.into());
    }
    Ok(way.arrange_bits(map))
}

// Refusals 1, 2 and 3, in this order, or the nine words.
fn checked(source: &[u16], space: usize) -> Result<&[u16; Code6250::TRACKS], Refusal>
    ensures answer { told (λ words. []) result ≡ words_answer source.now space }
    ensures words { IfOk result (λ words. words.now ≡ source.now) }
{
    let Some(words) = source.as_array() else {
        return Err(Reason::Length.into());
    };
    if space < Code6250::TRACKS {
        return Err(Reason::Space.into());
    }
    match slices::first_above(source, Code6250::MOST_WORD) {
        Some(place) => Err(Refusal {
            reason: Reason::StrayBits,
            place,
        }),
        None => Ok(words),
    }
}
