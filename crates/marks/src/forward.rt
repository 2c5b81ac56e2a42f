// The words of a group turned forward (document 01, "Backward"): groups come last first, and the ten bits of each word
// are reversed.
ghost use Rattle.std.specs.Prelude.{◌≡◌, ◌*◌, ◌<◌, ◌≤◌, length};
ghost use Rattle.register.specs.Bit.{bit};
ghost use Rattle.rectangular.specs.Constants.{tracks, numbers_per_group};
ghost use Rattle.group_code.specs.Word.{reversed_word, forward_word};
ghost use Rattle.marks.specs.Marks.{word_read};

use rectangular::Code6250;
use slices::turned_place;

// Bit k of a value.
#[tactic(auto, unfolding(register::specs::Bit::bit))]
pub(crate) fn bit_of(value: u16, k: usize) -> u16
    requires { k < 16 }
    ensures { result ≡ bit k value }
{
    (value >> k) % 2
}

// A word with its ten bits the other way round; one of more bits stays, and is refused.
fn reversed_word(word: u16) -> u16
    ensures { result ≡ reversed_word word }
{
    if word > Code6250::MOST_WORD {
        return word;
    }
    let mut reversed: u16 = 0;
    for k in 0..10 {
        reversed = 2 * reversed + bit_of(word, k);
    }
    reversed
}

// A word of a reading as it stands in the forward picture.
#[tactic(auto, unfolding(group_code::specs::Word::forward_word))]
fn forward_word(backward: bool, word: u16) -> u16
    ensures { result ≡ forward_word backward word }
{
    if backward { reversed_word(word) } else { word }
}

// The word of a track in group g of so many, from the numbers that are lent. In this crate only this
// function knows how a group lies among them.
pub(crate) fn word_read(backward: bool, words: &[u16], groups: usize, g: usize, track: usize) -> u16
    requires { (numbers_per_group * groups ≤ length words.now) × (g < groups) × (track < tracks) }
    ensures { result ≡ word_read backward words.now groups g track }
{
    let at = Code6250::NUMBERS * turned_place(backward, groups, g);
    forward_word(backward, words[at + track])
}
