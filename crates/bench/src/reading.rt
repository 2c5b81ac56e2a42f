// A reading out of its text: at 6250 a line for each group, its words and a pointer map that may be left
// out; at 800 characters, any number to a line. Empty lines are passed over. What the space does not hold
// is read and dropped: the space is larger than the largest record, so the library refuses it by its length.
ghost use Rattle.std.specs.Prelude.{◌≡◌, ◌+◌, ◌*◌, ◌≤◌, min, cond, length, take, get_or, set, IfOk};
ghost use Rattle.std.proofs.lemmas.List.Edits.{sets};
ghost use Rattle.text.specs.Line.{line_at};
ghost use Rattle.rectangular.specs.Constants.{numbers_per_group};
ghost use Rattle.bench.specs.Reading.{line_cause, row_length, group_numbers, group_line, is_stored};

use rectangular::Code6250;
use text::{LineFault, NumberFault, line_at};

// The numbers of a group, and its map.
const ROW: usize = Code6250::NUMBERS + 1;

// Why a line is turned down: for one of its numbers, or at 6250 since it has so many.
#[derive(Clone, Copy, PartialEq, Eq)]
pub(crate) enum Cause {
    Number(NumberFault),
    NotAGroup(usize),
}

// What is wrong with a line is wrong with the text.
impl From<LineFault> for Cause {
    ghost from_gives = { λ fault cause. cause ≡ line_cause fault };

    fn from(fault: LineFault) -> Cause {
        Cause::Number(fault.cause)
    }
}

// Why a text is turned down, and the line where it was seen.
#[derive(Clone, Copy, PartialEq, Eq)]
pub(crate) struct Fault {
    pub cause: Cause,
    pub line: usize,
}

// A line of a 6250 reading has the numbers of a group, with a map or without, or none.
fn group_numbers(numbers: usize) -> Result<usize, Cause>
    ensures { result ≡ group_numbers numbers }
{
    match numbers {
        0 | Code6250::NUMBERS | ROW => Ok(numbers),
        _ => Err(Cause::NotAGroup(numbers)),
    }
}

// Reads a line of a 6250 reading, and tells how many numbers it has.
fn group_line(line: &[u8], row: &mut [u16]) -> Result<usize, Cause>
    ensures line { result ≡ group_line (line_at line.now 0 row.old).0 }
    ensures row { row.new ≡ (line_at line.now 0 row.old).1 }
    ensures length { length row.new ≡ length row.old }
{
    let found = line_at(line, 0, row)?;
    group_numbers(found.count)
}

// Stores a group, if there is one and space for it, and tells how many are stored.
fn store_group(
    row: &[u16],
    numbers: usize,
    stored: usize,
    words: &mut [u16],
    maps: &mut [u16],
) -> usize
    requires { (length row.now ≡ row_length) × (stored ≤ length maps.old) × (numbers_per_group * length maps.old ≤ length words.old) }
    ensures stored { result ≡ cond (is_stored numbers stored (length maps.old)) (stored + 1) stored }
    ensures words { words.new ≡ cond (is_stored numbers stored (length maps.old)) (sets words.old (numbers_per_group * stored) (take numbers_per_group row.now)) words.old }
    ensures maps { maps.new ≡ cond (is_stored numbers stored (length maps.old)) (set maps.old stored (get_or row.now numbers_per_group 0)) maps.old }
    ensures within { (result ≤ length maps.old) × (length words.new ≡ length words.old) × (length maps.new ≡ length maps.old) }
{
    if numbers == 0 {
        return stored;
    }
    if stored == maps.len() {
        return stored;
    }
    let at = Code6250::NUMBERS * stored;
    words[at..at + Code6250::NUMBERS].copy_from_slice(&row[..Code6250::NUMBERS]);
    maps[stored] = row[Code6250::NUMBERS];
    stored + 1
}

// Reads the groups of a text, and tells how many are stored.
pub(crate) fn groups(text: &[u8], words: &mut [u16], maps: &mut [u16]) -> Result<usize, Fault>
    requires { numbers_per_group * length maps.old ≤ length words.old }
    ensures stored { IfOk result (λ stored. stored ≤ length maps.old) }
    ensures words { length words.new ≡ length words.old }
    ensures maps { length maps.new ≡ length maps.old }
{
    let mut stored = 0;
    for (n, line) in text.split(|byte| *byte == b'\n').enumerate() {
        let mut row = [0u16; ROW];
        let numbers = group_line(line, &mut row).map_err(|cause| Fault { cause, line: n + 1 })?;
        stored = store_group(&row, numbers, stored, words, maps);
    }
    Ok(stored)
}

// How many are stored once so many more came, of which the space holds only some.
fn filled(stored: usize, more: usize, space: usize) -> usize
    requires { stored ≤ space }
    ensures { result ≡ min (stored + more) space }
{
    stored + more.min(space - stored)
}

// Reads the characters of a text, and tells how many are stored.
pub(crate) fn characters(text: &[u8], characters: &mut [u16]) -> Result<usize, Fault>
    ensures stored { IfOk result (λ stored. stored ≤ length characters.old) }
    ensures characters { length characters.new ≡ length characters.old }
{
    let mut stored = 0;
    for (n, line) in text.split(|byte| *byte == b'\n').enumerate() {
        let found = line_at(line, 0, &mut characters[stored..]).map_err(|fault| Fault {
            cause: fault.into(),
            line: n + 1,
        })?;
        stored = filled(stored, found.count, characters.len());
    }
    Ok(stored)
}
