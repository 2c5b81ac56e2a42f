// Nine words or the nine bits of a pointer map, moved by a way: for each of nine places, the place to take from. The moving
// takes any permutation of nine places and refuses nothing: the crate head_order has the calls, with what they refuse. A way
// is made of a card (document 02, request 2.4).

#![tactic(auto)]

pub mod card;
pub mod track;

ghost use Rattle.std.specs.Prelude.{◌≡◌, ◌++◌, ◌≤◌, List, ℕ, length, drop};
ghost use Rattle.rectangular.specs.Constants.{tracks};
ghost use Rattle.track_order.specs.Order.{Permutation, arranged, arranged_map};

use rectangular::Code6250;
use std::marker::Model;

// Nine numbers: a card, or its inverse card.
pub type Card = [u8; Code6250::TRACKS];

// A way: nine places that are 0 to 8, each once. It is seen as these.
#[derive(Drop)]
pub struct Way {
    places: Card,
}

impl Model for Way {
    ghost Value = { List ℕ };

    ghost view = { λ way. way.places };

    ghost invariant = { λ way. Permutation way.places };
}

impl Way {
    // Its nine places.
    pub fn places(self) -> Card
        ensures { result ≡ self }
    {
        self.places
    }

    // Puts nine words at the front of the target.
    pub fn arrange(&self, source: &[u16; Code6250::TRACKS], target: &mut [u16])
        requires { tracks ≤ length target.old }
        ensures { target.new ≡ arranged self.now source.now ++ drop tracks target.old }
    {
        for (k, from) in self.places.iter().enumerate() {
            target[k] = source[*from as usize];
        }
    }

    // The map whose nine bits are taken so, gathered from the highest down.
    pub fn arrange_bits(&self, map: u16) -> u16
        ensures { result ≡ arranged_map self.now map }
    {
        let mut moved: u16 = 0;
        for k in (0..Code6250::TRACKS).rev() {
            moved = moved * 2 + (map >> self.places[k]) % 2;
        }
        moved
    }
}
