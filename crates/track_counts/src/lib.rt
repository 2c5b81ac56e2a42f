// The changes of each of the nine tracks, beside their sum (document 02, request 2.7): what a reader tells at 6250, and what a log tells
// that is read back.

#![tactic(auto)]

ghost use Rattle.std.specs.Prelude.{◌≡◌, ℕ, ◌+◌, ◌<◌, get_or};
ghost use Rattle.indexed.specs.List.{total};
ghost use Rattle.rectangular.specs.Constants.{tracks};
ghost use Rattle.register.specs.Bit.{bit};
ghost use Rattle.track_counts.specs.Counts.{fields, counts_told, packed, Holds, HasRoom};

use rectangular::Code6250;

// How many words are changed in each algebraic track: twelve bits for each, tracks 0 to 4 in one number and 5 to 8 in
// another, so that they are counted, and handed on, in two numbers (decision D34).
#[derive(Clone, Copy)]
pub struct Counts {
    low: u64,
    high: u64,
}

impl Counts {
    // No change in any track.
    pub fn none() -> Counts
        ensures { Holds result (λ k. 0) }
    {
        Counts { low: 0, high: 0 }
    }

    // One change more in each track of a map. Most maps have none, and that is seen at once.
    pub fn with(self, map: u16) -> Counts
        requires { HasRoom self }
        ensures { (f : ℕ → ℕ) → Holds self f → Holds result (λ k. f k + bit k map) }
    {
        if map == 0 {
            return self;
        }
        Counts {
            low: self.low + spread(map % 32),
            high: self.high + spread(map / 32 % 32),
        }
    }

    // The nine numbers, track 0 first.
    pub fn numbers(self) -> [usize; Code6250::TRACKS]
        ensures { result ≡ counts_told self }
    {
        if self.low == 0 && self.high == 0 {
            return [0; Code6250::TRACKS];
        }
        let mut numbers = [0; Code6250::TRACKS];
        for (track, number) in numbers.iter_mut().enumerate() {
            *number = self.number(track);
        }
        numbers
    }

    // The number of one track.
    fn number(&self, track: usize) -> usize
        requires { track < tracks }
        ensures { result ≡ get_or (counts_told self.now) track 0 }
    {
        if track < 5 {
            part(self.low, track)
        } else {
            part(self.high, track - 5)
        }
    }

    // Their sum: 4096 is one more than 4095, so that each number of twelve bits leaves itself.
    pub fn sum(self) -> usize
        ensures { (f : ℕ → ℕ) → Holds self f → total 5 f < 4095 → total 5 (λ k. f (5 + k)) < 4095 → result ≡ total 10 f }
    {
        (self.low % 4095 + self.high % 4095) as usize
    }
}

// One of the five numbers that one holds.
fn part(five: u64, k: usize) -> usize
    requires { k < 5 }
    ensures { result ≡ get_or (fields five) k 0 }
{
    ((five >> (12 * k)) % 4096) as usize
}

// Five bits, each in twelve bits of its own: of five copies that do not overlap the mask takes one bit each.
fn spread(bits: u16) -> u64
    requires { bits < 32 }
    ensures { result ≡ packed (λ k. bit k bits) }
{
    (bits as u64 * 0x100200400801) & 0x1001001001001
}
