// The bench at 6250 bits per inch (document 01, "The 6250 record").
ghost use Rattle.std.specs.Prelude.{◌≡◌, ◌+◌, ◌*◌, ◌≤◌, min, length};
ghost use Rattle.answer.specs.Answer.{told_written, output_after};
ghost use Rattle.rectangular.specs.Constants.{numbers_per_group, most_groups};
ghost use Rattle.record6250.specs.Record.{written_record};
ghost use Rattle.record6250.specs.Written.{write_answer};

use crate::picture::Column;
use crate::record::{Delivery, GROUPS, Marks, Numbers, Record, show};
use crate::{print, reading};
use answer::Refusal;
use marks::marks::{View, group_marks};
use page::Page;
use rectangular::Code6250;
use streams::Text;

// A reading: the words of each group and its pointer map.
#[derive(Drop)]
pub(crate) struct Groups<'a> {
    words: &'a [u16],
    maps: &'a [u16],
    backward: bool,
    ghost suits: { length words.now ≡ numbers_per_group * length maps.now },
    ghost bounded: { length maps.now ≤ most_groups + 1 },
}

// How many words so many groups of a record have.
fn words_of(groups: usize) -> usize
    ensures { result ≡ min (numbers_per_group * groups) (numbers_per_group * most_groups) }
{
    Code6250::NUMBERS * groups.min(Code6250::MOST_GROUPS)
}

impl Record for Groups<'_> {
    ghost record_of = { written_record };

    ghost answer_for = { write_answer };

    fn write(bytes: &[u8], numbers: &mut [u16]) -> Result<usize, Refusal>
        ensures answer { told_written result ≡ write_answer (length bytes.now) (length numbers.old) }
        ensures output { numbers.new ≡ output_after (told_written result) (written_record bytes.now) numbers.old }
    {
        writer6250::write(bytes, numbers)
    }

    fn size(count: usize) -> usize {
        words_of(count)
    }

    fn read(&self, output: &mut [u8]) -> Result<Delivery, Refusal> {
        let figures = reader6250::read_record(self.words, self.maps, self.backward, output)?;
        Ok(Delivery {
            length: figures.length,
            track: None,
            changes: figures.changes,
            counts: figures.counts.numbers(),
        })
    }

    fn backward(&self) -> bool {
        self.backward
    }

    fn columns(&self) -> usize {
        self.maps.len()
    }

    fn shown(&self) -> usize {
        self.maps.len()
    }

    fn column(place: usize) -> usize {
        place
    }

    fn kind() -> Column {
        Column::Group
    }

    fn mark(&self, right: &Numbers, view: View, marks: &mut Marks) {
        group_marks(self.words, self.maps, right, view, marks);
    }

    fn legend(delivered: bool) -> &'static [u8] {
        if delivered {
            b"marks: . as read, p pointed and right, c corrected, C pointed and corrected, i illegal and corrected\n"
        } else {
            b"marks: . as read, p pointed, i illegal, x refused\n"
        }
    }
}

// Reads the record whose reading is in a text.
pub(crate) fn read(page: &mut Page, text: &[u8], backward: bool) -> Text {
    let mut words: Numbers = [0; Code6250::NUMBERS * GROUPS];
    let mut maps = [0u16; GROUPS];
    match reading::groups(text, &mut words, &mut maps) {
        Ok(groups) => show(
            page,
            &Groups {
                words: &words[..Code6250::NUMBERS * groups],
                maps: &maps[..groups],
                backward,
            },
        ),
        Err(fault) => print::fault(page, fault),
    }
}
