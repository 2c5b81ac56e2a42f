// A reading as it is lent, once its lengths suit (document 01, "Where a call is turned down").
ghost use Rattle.std.specs.Prelude.{true, ◌≡◌, is_some, IfSome, length};
ghost use Rattle.record6250.specs.Read.{lengths_suit};

use rectangular::Code6250;

// The words and the maps that are lent, and whether the reading passed the head backward.
#[derive(Clone, Copy)]
pub struct Reading<'a> {
    pub words: &'a [u16],
    pub maps: &'a [u16],
    pub backward: bool,
    ghost suits: { lengths_suit (length words.now) (length maps.now) ≡ true },
}

impl<'a> Reading<'a> {
    // A reading of 1 to 586 groups, with the numbers of a group and a map for each; there is none of other lengths.
    pub fn new(words: &'a [u16], maps: &'a [u16], backward: bool) -> Option<Reading<'a>>
        ensures some { is_some result ≡ lengths_suit (length words.entry.now) (length maps.entry.now) }
        ensures as_lent { IfSome result (λ r. (r.words ≡ words.entry) × (r.maps ≡ maps.entry) × (r.backward ≡ backward)) }
    {
        if lengths_suit(words.len(), maps.len()) {
            Some(Reading {
                words,
                maps,
                backward,
            })
        } else {
            None
        }
    }
}

// Whether there are the numbers of a group and a map for each of 1 to 586 groups.
fn lengths_suit(words: usize, maps: usize) -> bool
    ensures { result ≡ lengths_suit words maps }
{
    if maps == 0 || maps > Code6250::MOST_GROUPS {
        return false;
    }
    words == maps * Code6250::NUMBERS
}
