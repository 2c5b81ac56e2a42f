// The bench at 800 bits per inch (document 01, "The 800 record").
ghost use Rattle.std.specs.Prelude.{◌≡◌, ◌+◌, ◌/◌, ◌≤◌, length};
ghost use Rattle.answer.specs.Answer.{told_written, output_after};
ghost use Rattle.record800.specs.Record.{written_record};
ghost use Rattle.record800.specs.Written.{write_answer};

use crate::picture::Column;
use crate::record::{Delivery, Marks, Numbers, Record, show};
use crate::{print, reading};
use answer::Refusal;
use cyclic::Code800;
use marks::marks::{View, run_marks};
use page::Page;
use streams::Text;

// One character more than a record has, so that longer readings are seen and refused.
const CHARACTERS: usize = Code800::MOST_LENGTH + 1;

// A reading: its characters.
#[derive(Drop)]
pub(crate) struct Characters<'a> {
    characters: &'a [u16],
    backward: bool,
    ghost bounded: { length characters.now ≤ 2051 },
}

// How many runs of 32 characters there are, the last of which may be shorter.
fn columns_of(characters: usize) -> usize
    requires { characters ≤ 2051 }
    ensures { result ≡ (characters + 31) / 32 }
{
    (characters + 31) / 32
}

impl Record for Characters<'_> {
    ghost record_of = { written_record };

    ghost answer_for = { write_answer };

    fn write(bytes: &[u8], numbers: &mut [u16]) -> Result<usize, Refusal>
        ensures answer { told_written result ≡ write_answer (length bytes.now) (length numbers.old) }
        ensures output { numbers.new ≡ output_after (told_written result) (written_record bytes.now) numbers.old }
    {
        writer800::write(bytes, numbers)
    }

    fn size(count: usize) -> usize {
        count
    }

    fn read(&self, output: &mut [u8]) -> Result<Delivery, Refusal> {
        let figures = reader800::read_record(self.characters, self.backward, output)?;
        Ok(Delivery {
            length: figures.length,
            // 9 is told where nothing was corrected
            track: Some(figures.track.unwrap_or(Code800::TRACKS)),
            changes: figures.changes,
            counts: figures.counts(),
        })
    }

    fn backward(&self) -> bool {
        self.backward
    }

    fn columns(&self) -> usize {
        columns_of(self.characters.len())
    }

    fn shown(&self) -> usize {
        self.characters.len()
    }

    fn column(place: usize) -> usize {
        place / 32
    }

    fn kind() -> Column {
        Column::Run
    }

    fn mark(&self, right: &Numbers, view: View, marks: &mut Marks) {
        let columns = columns_of(self.characters.len());
        run_marks(self.characters, right, view, columns, marks);
    }

    fn legend(delivered: bool) -> &'static [u8] {
        if delivered {
            b"marks: . as read, c corrected\n"
        } else {
            b"marks: . as read, x refused\n"
        }
    }
}

// Reads the record whose reading is in a text.
pub(crate) fn read(page: &mut Page, text: &[u8], backward: bool) -> Text {
    let mut characters = [0u16; CHARACTERS];
    match reading::characters(text, &mut characters) {
        Ok(stored) => show(
            page,
            &Characters {
                characters: &characters[..stored],
                backward,
            },
        ),
        Err(fault) => print::fault(page, fault),
    }
}
