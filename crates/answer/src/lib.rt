// How a call answers: a delivery, or a refusal with its number and its place (document 01, "Where a
// call is turned down"). "Delivered", "refused" and "place" are that paper's terms. An answer is a `Result`: what is
// delivered, or the `Refusal`.
#![tactic(auto)]

ghost use Rattle.std.specs.Prelude.{◌≡◌};
ghost use Rattle.answer.specs.Answer.{number_of};

// Why a call is refused, with the number that document 01's table, or the request in document 02, gives the reason.
#[derive(Clone, Copy, PartialEq, Eq)]
pub enum Reason {
    // A length is outside the limits.
    Length = 1,
    // The output has too little space.
    Space = 2,
    // A word, character or map has a bit beyond its width.
    StrayBits = 3,
    // Three or more tracks of a group are pointed.
    ManyPointed = 4,
    // No group of the code fits.
    NoGroup = 5,
    // The padding is not as a writer leaves it.
    Padding = 6,
    // No written record fits.
    NoRecord = 7,
    // More than one written record fits.
    SeveralRecords = 8,
    // A log is not one of 1 to 586 groups, or its length does not suit them and their bits (request 2.1).
    LogLength = 9,
    // A log has a spare bit, or a map of changed tracks that no reading has (request 2.1).
    LogContent = 10,
    // A card has a number above 8, or one that stands on two tracks (request 2.4).
    CardContent = 11,
    // A card does not have nine numbers (request 2.4).
    CardLength = 12,
}

impl Reason {
    // The number of a refusal for this reason.
    pub fn number(self) -> u16
        ensures { result ≡ number_of self }
    {
        self as u16
    }
}

// A refusal: its reason and its place, which is a group, a character, a word or a physical track, or 0.
#[derive(Clone, Copy, PartialEq, Eq)]
pub struct Refusal {
    pub reason: Reason,
    pub place: usize,
}

// A refusal that has no place.
impl From<Reason> for Refusal {
    ghost from_gives = { λ reason refusal. refusal ≡ record { reason = reason; place = 0 } };

    fn from(reason: Reason) -> Refusal {
        Refusal { reason, place: 0 }
    }
}
