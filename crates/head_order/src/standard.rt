// The calls of document 01, which name no card: they move by the standard one, which is good, so that nothing is asked of it.
ghost use Rattle.std.specs.Prelude.{[], ◌≡◌, length};
ghost use Rattle.answer.specs.Answer.{output_after};
ghost use Rattle.track_order.specs.Order.{standard_card, moved_words, moved_map};
ghost use Rattle.track_order.specs.Moved.{words_answer, map_answer};
ghost use Rattle.head_order.specs.Told.{told_stored, told_map};
ghost use Rattle.terms.specs.Call as Call;
ghost use Rattle.terms.specs.Terms.{Terms};

use crate::ways;
use answer::Refusal;
use arrangement::card::GoodCard;
use track_order::Toward;

// Moves nine words.
pub fn words(toward: Toward, source: &[u16], target: &mut [u16]) -> Result<(), Refusal>
    ensures answer { told_stored result [] ≡ words_answer source.now (length target.old) }
    ensures output { target.new ≡ output_after (told_stored result []) (moved_words toward standard_card source.now) target.old }
    ensures terms { Terms (Call.standard_words toward source.now) (told_stored result []) target.old target.new }
{
    ways::words(&GoodCard::standard().way(toward), source, target)
}

// Moves a pointer map.
pub fn map(toward: Toward, map: u16) -> Result<u16, Refusal>
    ensures answer { told_map result ≡ map_answer (moved_map toward standard_card) map }
    ensures terms { Terms (Call.standard_map toward map) (told_map result) [] [] }
{
    ways::map(&GoodCard::standard().way(toward), map)
}
