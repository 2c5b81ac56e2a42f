// The calls by a card. One routine serves both directions, with the card or its inverse as the way.
ghost use Rattle.std.specs.Prelude.{List, [], ◌≡◌, ℕ, length};
ghost use Rattle.answer.specs.Answer.{told, delivered, output_after, figures_after};
ghost use Rattle.track_order.specs.Order.{moved_words, moved_map};
ghost use Rattle.track_order.specs.Moved.{if_nine_words, if_nine_numbers, if_none_wrong, card_words_answer, card_map_answer, inverse_answer};
ghost use Rattle.head_order.specs.Told.{told_stored, told_map};
ghost use Rattle.terms.specs.Call as Call;
ghost use Rattle.terms.specs.Terms.{Terms};

use crate::ways;
use answer::{Reason, Refusal};
use arrangement::Card;
use arrangement::card::GoodCard;
use rectangular::Code6250;
use track_order::Toward;

// Moves nine words. This and `map` are compiled into their callers, which know the order and take the answer apart: as routines
// of their own, with the answer stored for the caller, they took a third more.
#[inline(always)]
pub fn words(toward: Toward, card: &[u8], source: &[u16], target: &mut [u16]) -> Result<(), Refusal>
    ensures answer { told_stored result [] ≡ card_words_answer card.now source.now (length target.old) }
    ensures output { target.new ≡ output_after (told_stored result []) (moved_words toward card.now source.now) target.old }
    ensures terms { Terms (Call.move_words toward card.now source.now) (told_stored result []) target.old target.new }
{
    let good = checked_sizes(card, source.len(), target.len())?;
    ways::words(&good.way(toward), source, target)
}

// Moves a pointer map: algebraic track a is its bit a in code order, and physical track p its bit p - 1 in head order.
#[inline(always)]
pub fn map(toward: Toward, card: &[u8], map: u16) -> Result<u16, Refusal>
    ensures answer { told_map result ≡ card_map_answer card.now (moved_map toward card.now) map }
    ensures terms { Terms (Call.move_map toward card.now map) (told_map result) [] [] }
{
    let good = checked(card)?;
    ways::map(&good.way(toward), map)
}

// Gives the inverse card: for algebraic tracks 0 to 8 the physical track less 1.
pub fn inverse(card: &[u8], numbers: &mut Card) -> Result<(), Refusal>
    ensures answer { told_stored result numbers.new ≡ inverse_answer card.now }
    ensures output { numbers.new ≡ figures_after (inverse_answer card.now) numbers.old }
    ensures terms { Terms (Call.invert_card card.now) (told_stored result numbers.new) [] [] }
{
    *numbers = checked(card)?.inverse().places();
    Ok(())
}

// Refusals 12, 1, 2 and 11, in this order, or the good card: the stray bits are asked with the moving.
fn checked_sizes(card: &[u8], count: usize, space: usize) -> Result<GoodCard<'_>, Refusal>
    ensures { told (λ good. good) result ≡ if_nine_numbers card.now (if_nine_words count space (if_none_wrong card.now (delivered card.now))) }
{
    let card = nine_numbers(card)?;
    if count != Code6250::TRACKS {
        return Err(Reason::Length.into());
    }
    if space < Code6250::TRACKS {
        return Err(Reason::Space.into());
    }
    none_wrong(card)
}

// Refusals 12 and 11, or the good card.
fn checked(card: &[u8]) -> Result<GoodCard<'_>, Refusal>
    ensures { told (λ good. good) result ≡ if_nine_numbers card.now (if_none_wrong card.now (delivered card.now)) }
{
    none_wrong(nine_numbers(card)?)
}

// Refusal 12, or the nine numbers.
fn nine_numbers(card: &[u8]) -> Result<&Card, Refusal>
    ensures { told (λ numbers. numbers.now) result ≡ if_nine_numbers card.now (delivered card.now) }
{
    match card.as_array() {
        Some(numbers) => Ok(numbers),
        None => Err(Reason::CardLength.into()),
    }
}

// Refusal 11, told with the physical track, or the good card.
fn none_wrong(card: &Card) -> Result<GoodCard<'_>, Refusal>
    ensures { told (λ good. good) result ≡ if_none_wrong card.now (delivered card.now) }
{
    GoodCard::new(card).map_err(|track| Refusal {
        reason: Reason::CardContent,
        place: track.number(),
    })
}
