// What the bench does with a record of either density: writes one, or reads one and shows what was delivered or refused.
ghost use Rattle.std.specs.Prelude.{◌≡◌, ℕ, ◌≤◌, List, length, take};
ghost use Rattle.answer.specs.Answer.{Answer, told_written, output_after};
ghost use Rattle.bench.specs.Picture.{most_columns};

use crate::picture::{Column, Picture};
use crate::print;
use answer::{Reason, Refusal};
use answer_text::put_refusal;
use marks::marks::{View, refused_column};
use page::Page;
use rectangular::Code6250;
use streams::Text;

// One group more than a record has, so that longer readings are seen and refused.
pub(crate) const GROUPS: usize = Code6250::MOST_GROUPS + 1;

// A mark for each track of each column. At 800 bits per inch the longest reading has fewer columns.
pub(crate) type Marks = [u8; Code6250::TRACKS * GROUPS];

// The words of so many groups. At 800 bits per inch the longest reading has fewer characters.
pub(crate) type Numbers = [u16; Code6250::NUMBERS * GROUPS];

// What is told of a delivery: the length of its data, at 800 bits per inch the number of the corrected track, the changes, and those
// of each track.
#[derive(Clone, Copy)]
pub(crate) struct Delivery {
    pub length: usize,
    pub track: Option<usize>,
    pub changes: usize,
    pub counts: [usize; Code6250::TRACKS],
}

// A reading at one of the densities, and how records of that density are written.
pub(crate) trait Record {
    ghost record_of: { List ℕ → List ℕ };

    ghost answer_for: { ℕ → ℕ → Answer };

    // Writes the record of data, and tells how many groups or characters it has.
    fn write(bytes: &[u8], numbers: &mut [u16]) -> Result<usize, Refusal>
        ensures answer { told_written result ≡ answer_for (length bytes.now) (length numbers.old) }
        ensures output { numbers.new ≡ output_after (told_written result) (record_of bytes.now) numbers.old };

    // How many numbers so many groups or characters are.
    fn size(count: usize) -> usize;

    // Reads the record.
    fn read(&self, output: &mut [u8]) -> Result<Delivery, Refusal>;

    // Which way the record passed the head.
    fn backward(&self) -> bool;

    // How many columns its picture has.
    fn columns(&self) -> usize
        ensures { result ≤ most_columns };

    // How many groups or characters the columns show.
    fn shown(&self) -> usize;

    // The column of a place, which is a group or a character.
    fn column(place: usize) -> usize;

    // What a column shows.
    fn kind() -> Column;

    // Marks the tracks, the record that was delivered beside them.
    fn mark(&self, right: &Numbers, view: View, marks: &mut Marks);

    // What the marks of a delivery, or of a refusal, mean.
    fn legend(delivered: bool) -> &'static [u8];
}

// Writes the record of data.
pub(crate) fn write<R: Record>(page: &mut Page, bytes: &[u8]) -> Text {
    let mut numbers: Numbers = [0; Code6250::NUMBERS * GROUPS];
    match R::write(bytes, &mut numbers) {
        Ok(count) => print::numbers(page, front(&numbers, R::size(count))),
        Err(refusal) => put_refusal(page, refusal),
    }
    Text::Output
}

// So many values, or all if there are fewer.
fn front<T>(values: &[T], count: usize) -> &[T]
    ensures { result.now ≡ take count values.now }
{
    &values[..count.min(values.len())]
}

// Reads the record and shows the answer, the data and the picture.
pub(crate) fn show<R: Record>(page: &mut Page, reading: &R) -> Text {
    let mut output = [0u8; Code6250::MOST_BODY];
    match reading.read(&mut output) {
        Ok(delivery) => show_delivered(page, reading, front(&output, delivery.length), &delivery),
        Err(refusal) => show_refused(page, reading, refusal),
    }
    Text::Output
}

// A delivery: the figures, the data, and the picture, in which the record that was delivered shows what was
// corrected.
fn show_delivered<R: Record>(page: &mut Page, reading: &R, bytes: &[u8], delivery: &Delivery) {
    page.put(b"delivered");
    print::figure(page, delivery.length);
    if let Some(track) = delivery.track {
        print::figure(page, track);
    }
    print::figure(page, delivery.changes);
    page.put(b"\n");
    print::data(page, bytes);
    let mut right: Numbers = [0; Code6250::NUMBERS * GROUPS];
    write_again::<R>(bytes, &mut right);
    draw(page, reading, &right, None, Some(delivery.counts));
}

// Writes the record that was delivered, from its data.
fn write_again<R: Record>(bytes: &[u8], right: &mut Numbers)
    ensures { right.new ≡ output_after (R.answer_for (length bytes.now) (length right.old)) (R.record_of bytes.now) right.old }
{
    // a refusal leaves the numbers, and data that were delivered are not refused
    let _ = R::write(bytes, right);
}

// A refusal: the answer, and the picture of what was read. One for a length or for space has none, since the
// reading is then no record.
fn show_refused<R: Record>(page: &mut Page, reading: &R, refusal: Refusal) {
    put_refusal(page, refusal);
    if matches!(refusal.reason, Reason::Length | Reason::Space) {
        return;
    }
    let right: Numbers = [0; Code6250::NUMBERS * GROUPS];
    let refused = refused_column(refusal.reason.number(), R::column(refusal.place));
    draw(page, reading, &right, refused, None);
}

// Marks the tracks, draws the picture, and says what its marks mean. A delivery has counts, and a refusal may have a column.
fn draw<R: Record>(
    page: &mut Page,
    reading: &R,
    right: &Numbers,
    refused: Option<usize>,
    counts: Option<[usize; Code6250::TRACKS]>,
) {
    let delivered = counts.is_some();
    let view = View {
        backward: reading.backward(),
        delivered,
        refused,
    };
    let mut marks: Marks = [0; Code6250::TRACKS * GROUPS];
    reading.mark(right, view, &mut marks);
    let picture = Picture {
        marks: &marks,
        columns: reading.columns(),
        column: R::kind(),
        shown: reading.shown(),
        counts,
    };
    picture.draw(page);
    page.put(R::legend(delivered));
}
