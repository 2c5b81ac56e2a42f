// Head order for C, by the standard card.
ghost use Rattle.std.specs.Prelude.{[], ◌∷◌};
ghost use Rattle.head_order.specs.Told.{told_map};
ghost use Rattle.terms.specs.Call as Call;
ghost use Rattle.track_order.specs.declared.Toward.TheVariants.{Physical, Algebraic};
ghost use Rattle.rindthok.specs.Called.{Stored, Called};

use crate::status;
use answer::Refusal;
use head_order::standard;
use track_order::Toward;

// Nine words from code order to head order.
#[unsafe(no_mangle)]
pub extern "C" fn rindthok_words_to_physical(
    source: &[u16],
    target: &mut [u16],
    place: &mut usize,
) -> u16
    ensures { Called (Call.standard_words Physical source.now) target.old target.new [] [] result place.new }
{
    status(standard::words(Toward::Physical, source, target), place)
}

// Nine words from head order to code order.
#[unsafe(no_mangle)]
pub extern "C" fn rindthok_words_to_algebraic(
    source: &[u16],
    target: &mut [u16],
    place: &mut usize,
) -> u16
    ensures { Called (Call.standard_words Algebraic source.now) target.old target.new [] [] result place.new }
{
    status(standard::words(Toward::Algebraic, source, target), place)
}

// A pointer map from code order to head order.
#[unsafe(no_mangle)]
pub extern "C" fn rindthok_map_to_physical(map: u16, moved: &mut u16, place: &mut usize) -> u16
    ensures { Called (Call.standard_map Physical map) [] [] (moved.old ∷ []) (moved.new ∷ []) result place.new }
{
    status(
        store_map(standard::map(Toward::Physical, map), moved),
        place,
    )
}

// A pointer map from head order to code order.
#[unsafe(no_mangle)]
pub extern "C" fn rindthok_map_to_algebraic(map: u16, moved: &mut u16, place: &mut usize) -> u16
    ensures { Called (Call.standard_map Algebraic map) [] [] (moved.old ∷ []) (moved.new ∷ []) result place.new }
{
    status(
        store_map(standard::map(Toward::Algebraic, map), moved),
        place,
    )
}

// Stores the map that was moved.
pub(crate) fn store_map(answer: Result<u16, Refusal>, moved: &mut u16) -> Result<(), Refusal>
    ensures { Stored (told_map answer) (moved.old ∷ []) (moved.new ∷ []) result }
{
    let map = answer?;
    *moved = map;
    Ok(())
}
