// Wiring cards (document 02, request 2.4): for physical tracks 1 to 9 the algebraic track.
ghost use Rattle.std.specs.Prelude.{◌≡◌, ◌<◌, Ok, Err, cond, suc, List, ℕ, leb, length, get_or};
ghost use Rattle.indexed.specs.List.{index_in};
ghost use Rattle.rectangular.specs.Constants.{tracks};
ghost use Rattle.track_order.specs.Card.{wrong_number, first_wrong};
ghost use Rattle.track_order.specs.Order.{Permutation, standard_card, inverse, way};

use crate::track::PhysicalTrack;
use crate::{Card, Way};
use rectangular::Code6250;
use std::marker::Model;
use track_order::Toward;

// Note 11 of document 000: the card of a head that nobody rewired.
static STANDARD: Card = [1, 4, 7, 8, 3, 6, 0, 2, 5];

// A card that is good: nine numbers below nine, no two of them the same. It is seen as its numbers.
#[derive(Drop)]
pub struct GoodCard<'a> {
    numbers: &'a Card,
}

impl<'a> Model for GoodCard<'a> {
    ghost Value = { List ℕ };

    ghost view = { λ card. card.numbers.now };

    ghost invariant = { λ card. Permutation card.numbers.now };
}

impl<'a> GoodCard<'a> {
    // The standard card.
    pub fn standard() -> GoodCard<'static>
        ensures { result ≡ standard_card }
    {
        GoodCard { numbers: &STANDARD }
    }

    // The card of nine numbers, or the lowest physical track that has a wrong one.
    pub fn new(numbers: &'a Card) -> Result<GoodCard<'a>, PhysicalTrack>
        ensures { result ≡ cond (leb tracks (first_wrong numbers.now)) (Ok numbers.now) (Err (suc (first_wrong numbers.now))) }
    {
        match wrong_place(numbers) {
            None => Ok(GoodCard { numbers }),
            Some(place) => Err(PhysicalTrack::at(place)),
        }
    }

    // The way to an order by the card.
    pub fn way(&self, toward: Toward) -> Way
        ensures { result ≡ way toward self.now }
    {
        match toward {
            Toward::Physical => self.direct(),
            Toward::Algebraic => self.inverse(),
        }
    }

    // The card as a way: for each place of head order, the place of its track in code order. That a field is lent tells the
    // check that the card is good, here and below.
    fn direct(&self) -> Way
        ensures { result ≡ self.now }
    {
        let _ = &self.numbers;
        let mut places = [0u8; Code6250::TRACKS];
        for (k, place) in places.iter_mut().enumerate() {
            *place = self.across(k) as u8;
        }
        Way { places }
    }

    // The inverse card: for each place of code order, the place of its track in head order.
    pub fn inverse(&self) -> Way
        ensures { result ≡ inverse self.now }
    {
        let _ = &self.numbers;
        let mut places = [0u8; Code6250::TRACKS];
        for k in 0..Code6250::TRACKS {
            places[self.across(k)] = k as u8;
        }
        Way { places }
    }

    // The place in code order of the track that has a place in head order.
    fn across(&self, place: usize) -> usize
        requires { place < tracks }
        ensures place { result ≡ get_or self.now place 0 }
        ensures within { result < tracks }
    {
        let numbers = self.numbers;
        PhysicalTrack::at(place).algebraic(numbers).place()
    }
}

// The index of the lowest physical track of nine that has a wrong number. It is looked for only if there is one: a search in
// every call took 4 ns more (decision D32).
fn wrong_place(card: &Card) -> Option<usize>
    ensures { result ≡ index_in tracks (first_wrong card.now) }
{
    if is_good(card) {
        None
    } else {
        first_wrong(card)
    }
}

// Whether the card is good, by its numbers as bits: nine numbers below nine make the map of all nine tracks exactly if no two
// of them are the same.
pub fn is_good(card: &Card) -> bool
    ensures { result ≡ leb tracks (first_wrong card.now) }
{
    let mut seen: u16 = 0;
    for number in card {
        if *number as usize >= Code6250::TRACKS {
            return false;
        }
        seen |= 1 << *number;
    }
    seen == Code6250::MOST_MAP
}

// The index of the lowest physical track whose number is above 8 or stands on another track.
pub fn first_wrong(card: &[u8]) -> Option<usize>
    ensures { result ≡ index_in (length card.now) (first_wrong card.now) }
{
    for place in 0..card.len() {
        if is_wrong(card, place) {
            return Some(place);
        }
    }
    None
}

// Whether the number at a place is above 8 or stands at another place, which is looked for from the far end and no further than
// needed: counting all that have the number took three times as long.
fn is_wrong(card: &[u8], place: usize) -> bool
    requires { place < length card.now }
    ensures { result ≡ wrong_number card.now (get_or card.now place 0) }
{
    let number = card[place];
    if number as usize >= Code6250::TRACKS {
        return true;
    }
    for k in (0..card.len()).rev() {
        if card[k] == number && k != place {
            return true;
        }
    }
    false
}
