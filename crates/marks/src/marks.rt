// The marks of a picture: one for each track and each column, a group at 6250 and a run of 32 characters at
// 800. A mark tells whether the word or the bit differs from the record that was delivered (document 01, "Where
// a call is turned down"), and what pointed its track. A refusal corrects nothing, so there a mark tells what
// was read and what was pointed. A track is an index below nine, as the loops count it: a type of its own would be made anew for
// each mark.
ghost use Rattle.std.specs.Prelude.{◌&&◌, ◌++◌, ◌≡◌, ℕ, ◌+◌, ◌*◌, ◌/◌, ◌%◌, ◌<◌, ◌≤◌, length, get_or, drop};
ghost use Rattle.rectangular.specs.Constants.{tracks, numbers_per_group};
ghost use Rattle.marks.specs.Marks.{mark_of, marked, is_illegal, pointer_of, group_mark, group_marks, run_length, character_right, run_right, run_mark, run_marks, refused_column};

use crate::forward::{bit_of, word_read};
use rectangular::Code6250;
use slices::turned_place;

// What is shown: which way the record passed the head, whether it was delivered, and the column that was refused.
#[derive(Clone, Copy)]
pub struct View {
    pub backward: bool,
    pub delivered: bool,
    pub refused: Option<usize>,
}

impl View {
    // Whether what differs from the record that was delivered is corrected; a refusal corrects nothing.
    fn corrects(self, differs: bool) -> bool
        ensures { result ≡ (self.delivered && differs) }
    {
        self.delivered && differs
    }

    // A mark of a column, or that of the refused one.
    fn marked(self, column: usize, mark: u8) -> u8
        ensures { result ≡ marked self.refused column mark }
    {
        match self.refused {
            Some(refused) if refused == column => b'x',
            _ => mark,
        }
    }
}

// The column of a refusal that has one, by its number: any number is answered, as the contract has it.
pub fn refused_column(number: u16, column: usize) -> Option<usize>
    ensures { result ≡ refused_column number column }
{
    if 3 <= number && number <= 5 {
        Some(column)
    } else {
        None
    }
}

// What points a track: the drive, or its own word, which is illegal.
#[derive(Clone, Copy, PartialEq, Eq)]
enum Pointer {
    Drive,
    Word,
}

// The mark of a track in a column that was not refused.
fn mark(pointer: Option<Pointer>, changed: bool) -> u8
    ensures { result ≡ mark_of pointer changed }
{
    match (pointer, changed) {
        (Some(Pointer::Drive), true) => b'C',
        (Some(Pointer::Drive), false) => b'p',
        (Some(Pointer::Word), _) => b'i',
        (None, true) => b'c',
        (None, false) => b'.',
    }
}

// Whether a half of the word is no code (document 01, "The 6250 group"). A word of more than ten bits is none.
fn is_illegal(word: u16) -> bool
    ensures { result ≡ is_illegal word }
{
    if word > Code6250::MOST_WORD {
        return true;
    }
    group_code::readings(false)[word as usize] / 256 == 1
}

// What points a track of a group: the drive by the track's bit in the pointer map, which goes before an illegal word.
fn pointed_by(map: u16, word: u16, track: usize) -> Option<Pointer>
    requires { track < tracks }
    ensures { result ≡ pointer_of map word track }
{
    if bit_of(map, track) == 1 {
        return Some(Pointer::Drive);
    }
    is_illegal(word).then_some(Pointer::Word)
}

// A reading at 6250 as it is shown: the words and the pointer map of each group, and beside them the words of the record that was
// delivered.
#[derive(Drop)]
struct Groups<'a> {
    words: &'a [u16],
    maps: &'a [u16],
    right: &'a [u16],
    view: View,
    ghost words_suit: { numbers_per_group * length maps.now ≤ length words.now },
    ghost right_suits: { numbers_per_group * length maps.now ≤ length right.now },
}

impl Groups<'_> {
    // The mark of a track in a group. A word is changed where the record that was delivered has another.
    fn mark(&self, g: usize, track: usize) -> u8
        requires { (g < length self.now.maps.now) × (track < tracks) }
        ensures { result ≡ group_mark self.now.view self.now.words.now self.now.maps.now self.now.right.now g track }
    {
        let view = self.view;
        let groups = self.maps.len();
        let word = word_read(view.backward, self.words, groups, g, track);
        let kept = word_read(false, self.right, groups, g, track);
        let map = self.maps[turned_place(view.backward, groups, g)];
        let pointer = pointed_by(map, word, track);
        view.marked(g, mark(pointer, view.corrects(word != kept)))
    }
}

// All marks, one for each track in each column, at the front.
fn put_marks<F: Fn(usize, usize) -> u8>(columns: usize, mark: F, marks: &mut [u8])
    requires room { tracks * columns ≤ length marks.old }
    requires marked { (column track : ℕ) → column < columns → track < tracks → F.pre mark column track }
    ensures length { length marks.new ≡ length marks.old }
    ensures front { (i : ℕ) → i < tracks * columns → F.post mark (i / tracks) (i % tracks) (get_or marks.new i 0) }
    ensures behind { (i : ℕ) → tracks * columns ≤ i → get_or marks.new i 0 ≡ get_or marks.old i 0 }
{
    for i in 0..Code6250::TRACKS * columns {
        marks[i] = mark(i / Code6250::TRACKS, i % Code6250::TRACKS);
    }
}

// All marks of a 6250 reading, one for each track in each group, at the front.
pub fn group_marks(words: &[u16], maps: &[u16], right: &[u16], view: View, marks: &mut [u8])
    requires { (numbers_per_group * length maps.now ≤ length words.now) × (numbers_per_group * length maps.now ≤ length right.now) × (tracks * length maps.now ≤ length marks.old) }
    ensures { marks.new ≡ group_marks view words.now maps.now right.now ++ drop (tracks * length maps.now) marks.old }
{
    let groups = Groups {
        words,
        maps,
        right,
        view,
    };
    put_marks(maps.len(), |g, track| groups.mark(g, track), marks);
}

// How many characters the run has that begins at an index.
fn run_length(count: usize, from: usize) -> usize
    requires { from ≤ count }
    ensures length { result ≡ run_length count from }
    ensures within { from + result ≤ count }
{
    (count - from).min(32)
}

// A reading at 800 as it is shown, and beside it the characters of the record that was delivered.
#[derive(Drop)]
struct Runs<'a> {
    characters: &'a [u16],
    right: &'a [u16],
    view: View,
    ghost suits: { length characters.now ≤ length right.now },
}

impl Runs<'_> {
    // Whether a track of a character is as it was delivered.
    #[tactic(auto, unfolding(crate::specs::Marks::character_right, crate::specs::Marks::character_read))]
    fn is_right_at(&self, track: usize, k: usize) -> bool
        requires { (k < length self.now.characters.now) × (track < tracks) }
        ensures { result ≡ character_right self.now.view.backward self.now.characters.now self.now.right.now track k }
    {
        let at = turned_place(self.view.backward, self.characters.len(), k);
        bit_of(self.characters[at], track) == bit_of(self.right[k], track)
    }

    // Whether a track is as it was delivered in every character of the run that begins at an index.
    fn is_right(&self, track: usize, from: usize) -> bool
        requires { (from ≤ length self.now.characters.now) × (track < tracks) }
        ensures { result ≡ run_right self.now.view.backward self.now.characters.now self.now.right.now track from }
    {
        for k in 0..run_length(self.characters.len(), from) {
            if !self.is_right_at(track, from + k) {
                return false;
            }
        }
        true
    }

    // The mark of a track in a run, where the drive points none.
    #[tactic(auto, unfolding(crate::specs::Marks::run_mark))]
    fn mark(&self, column: usize, track: usize) -> u8
        requires { (32 * column ≤ length self.now.characters.now) × (track < tracks) }
        ensures { result ≡ run_mark self.now.view self.now.characters.now self.now.right.now column track }
    {
        let changed = self.view.corrects(!self.is_right(track, 32 * column));
        self.view.marked(column, mark(None, changed))
    }
}

// All marks of an 800 reading, one for each track in each run, at the front.
pub fn run_marks(characters: &[u16], right: &[u16], view: View, columns: usize, marks: &mut [u8])
    requires { (32 * columns ≤ length characters.now + 31) × (length characters.now ≤ length right.now) × (tracks * columns ≤ length marks.old) }
    ensures { marks.new ≡ run_marks view characters.now right.now columns ++ drop (tracks * columns) marks.old }
{
    let runs = Runs {
        characters,
        right,
        view,
    };
    put_marks(columns, |column, track| runs.mark(column, track), marks);
}
