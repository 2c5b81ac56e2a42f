// The two numberings of the tracks (document 000, note 11). Each keeps its number to itself, so that neither can stand
// in for the other: a physical track is made from its place, and a card is the only way across.
ghost use Rattle.std.specs.Prelude.{◌≡◌, ℕ, ◌+◌, ◌-◌, ◌≤◌, ◌<◌, length, get_or};
ghost use Rattle.rectangular.specs.Constants.{tracks};

use std::marker::Model;

// A track of the head, 1 to 9.
#[derive(Drop)]
pub struct PhysicalTrack(usize);

impl Model for PhysicalTrack {
    ghost Value = { ℕ };

    ghost view = { λ track. track.0 };

    ghost invariant = { λ track. (1 ≤ track.0) × (track.0 ≤ tracks) };
}

// A track of the code, 0 to 8.
#[derive(Drop)]
pub struct AlgebraicTrack(usize);

impl Model for AlgebraicTrack {
    ghost Value = { ℕ };

    ghost view = { λ track. track.0 };

    ghost invariant = { λ track. track.0 < tracks };
}

impl PhysicalTrack {
    // The track at a place of head order.
    pub fn at(place: usize) -> PhysicalTrack
        requires { place < tracks }
        ensures { result ≡ place + 1 }
    {
        PhysicalTrack(place + 1)
    }

    // The track's number, as a refusal of a card tells it.
    pub fn number(self) -> usize
        ensures number { result ≡ self }
        ensures within { (1 ≤ result) × (result ≤ tracks) }
    {
        self.0
    }

    // The only way from one numbering to the other: the number that a card has for the track.
    pub fn algebraic(self, card: &[u8]) -> AlgebraicTrack
        requires { (self ≤ length card.now) × (get_or card.now (self - 1) 0 < tracks) }
        ensures { result ≡ get_or card.now (self - 1) 0 }
    {
        AlgebraicTrack(card[self.0 - 1] as usize)
    }
}

impl AlgebraicTrack {
    // The place of the track in code order.
    pub fn place(self) -> usize
        ensures place { result ≡ self }
        ensures within { result < tracks }
    {
        self.0
    }
}
