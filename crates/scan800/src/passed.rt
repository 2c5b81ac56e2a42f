// A reading whose length and characters suit.
ghost use Rattle.std.specs.Prelude.{true, ◌≡◌, length};
ghost use Rattle.record800.specs.Read.{length_suits, first_stray};

use crate::Reading;

// A reading of 3 to 2,050 characters, none of which has a bit beyond the nine tracks: document 01's checks of these have passed.
#[derive(Clone, Copy)]
pub struct Passed<'a> {
    pub reading: Reading<'a>,
    pub ghost lengths: { length_suits (length reading.characters.now) ≡ true },
    pub ghost no_stray: { first_stray reading.backward reading.characters.now ≡ length reading.characters.now },
}
