// Head order for C, by a wiring card (document 02, request 2.4).
ghost use Rattle.std.specs.Prelude.{[], ◌∷◌};
ghost use Rattle.terms.specs.Call as Call;
ghost use Rattle.track_order.specs.declared.Toward.TheVariants.{Physical, Algebraic};
ghost use Rattle.rindthok.specs.Called.{Called};

use crate::order::store_map;
use crate::status;
use head_order::card;
use rectangular::Code6250;
use track_order::Toward;

// Nine words from code order to head order.
#[unsafe(no_mangle)]
pub extern "C" fn rindthok_card_words_to_physical(
    card: &[u8],
    source: &[u16],
    target: &mut [u16],
    place: &mut usize,
) -> u16
    ensures { Called (Call.move_words Physical card.now source.now) target.old target.new [] [] result place.new }
{
    status(card::words(Toward::Physical, card, source, target), place)
}

// Nine words from head order to code order.
#[unsafe(no_mangle)]
pub extern "C" fn rindthok_card_words_to_algebraic(
    card: &[u8],
    source: &[u16],
    target: &mut [u16],
    place: &mut usize,
) -> u16
    ensures { Called (Call.move_words Algebraic card.now source.now) target.old target.new [] [] result place.new }
{
    status(card::words(Toward::Algebraic, card, source, target), place)
}

// A pointer map from code order to head order.
#[unsafe(no_mangle)]
pub extern "C" fn rindthok_card_map_to_physical(
    card: &[u8],
    map: u16,
    moved: &mut u16,
    place: &mut usize,
) -> u16
    ensures { Called (Call.move_map Physical card.now map) [] [] (moved.old ∷ []) (moved.new ∷ []) result place.new }
{
    status(
        store_map(card::map(Toward::Physical, card, map), moved),
        place,
    )
}

// A pointer map from head order to code order.
#[unsafe(no_mangle)]
pub extern "C" fn rindthok_card_map_to_algebraic(
    card: &[u8],
    map: u16,
    moved: &mut u16,
    place: &mut usize,
) -> u16
    ensures { Called (Call.move_map Algebraic card.now map) [] [] (moved.old ∷ []) (moved.new ∷ []) result place.new }
{
    status(
        store_map(card::map(Toward::Algebraic, card, map), moved),
        place,
    )
}

// The inverse card: its nine numbers are the figures of the answer, and a refusal leaves them.
#[unsafe(no_mangle)]
pub extern "C" fn rindthok_inverse_card(
    card: &[u8],
    inverse: &mut [u8; Code6250::TRACKS],
    place: &mut usize,
) -> u16
    ensures { Called (Call.invert_card card.now) [] [] inverse.old inverse.new result place.new }
{
    status(card::inverse(card, inverse), place)
}
