// The picture of a record: a row for each track, a column for each group or run of characters, in blocks of
// at most 64 columns, in the forward order of the record. Where the record was delivered, each row ends with the changes of its track
// in all of the record (document 02, request 2.7).
ghost use Rattle.std.specs.Prelude.{◌++◌, ◌≡◌, ◌+◌, ◌-◌, ◌*◌, ◌<◌, ◌≤◌, min, length, drop};
ghost use Rattle.rectangular.specs.Constants.{tracks};
ghost use Rattle.bench.specs.Picture.{row_of, first_of, most_columns};

use crate::print::figure;
use page::Page;
use rectangular::Code6250;

// A block has so many columns at most.
const BLOCK: usize = 64;

// What a column shows: a group, or 32 characters.
#[derive(Clone, Copy, PartialEq, Eq)]
pub(crate) enum Column {
    Group,
    Run,
}

impl Column {
    // The first group of a column, or the first character.
    fn first(self, column: usize) -> usize
        requires { column ≤ most_columns }
        ensures { result ≡ first_of self column }
    {
        match self {
            Column::Group => column,
            Column::Run => 32 * column,
        }
    }

    // What the columns of a block are counted in.
    fn name(self) -> &'static [u8] {
        match self {
            Column::Group => b"groups ",
            Column::Run => b"characters ",
        }
    }
}

// A picture: the marks of its columns, one for each track, which show so many groups, or characters; and the counts of the tracks,
// which a refusal has not.
#[derive(Drop)]
pub(crate) struct Picture<'a> {
    pub marks: &'a [u8],
    pub columns: usize,
    pub column: Column,
    pub shown: usize,
    pub counts: Option<[usize; Code6250::TRACKS]>,
    ghost marked: { tracks * columns ≤ length marks.now },
    ghost bounded: { columns ≤ most_columns },
}

impl Picture<'_> {
    // The marks of a track, from a column on, at the front of the row.
    fn gather(&self, track: usize, from: usize, count: usize, row: &mut [u8])
        requires { (track < tracks) × (from + count ≤ self.now.columns) × (count ≤ length row.old) }
        ensures { row.new ≡ row_of self.now.marks.now track from count ++ drop count row.old }
    {
        for k in 0..count {
            row[k] = self.marks[Code6250::TRACKS * (from + k) + track];
        }
    }

    // The label of a track, and a space.
    fn put_label(&self, page: &mut Page, track: usize) {
        if self.column == Column::Group && track == Code6250::PARITY_TRACK {
            page.put(b"P");
        } else {
            page.decimal(track as u64);
        }
        page.put(b" ");
    }

    fn put_row(&self, page: &mut Page, track: usize, from: usize, count: usize)
        requires { (track < tracks) × (from + count ≤ self.now.columns) × (count ≤ 64) }
    {
        let mut row = [0u8; BLOCK];
        self.gather(track, from, count, &mut row);
        self.put_label(page, track);
        page.put(&row[..count]);
        if let Some(counts) = self.counts {
            figure(page, counts[track]);
        }
        page.put(b"\n");
    }

    // The last group or character that the columns in front of one show.
    fn last_before(&self, column: usize) -> usize
        requires { column ≤ self.now.columns }
        ensures { result ≡ min (first_of self.now.column column) self.now.shown - 1 }
    {
        self.column.first(column).min(self.shown).saturating_sub(1)
    }

    // What the columns of a block show, from the first group or character to the last.
    fn put_heading(&self, page: &mut Page, from: usize, count: usize)
        requires { from + count ≤ self.now.columns }
    {
        page.put(self.column.name());
        page.decimal(self.column.first(from) as u64);
        page.put(b" to ");
        page.decimal(self.last_before(from + count) as u64);
        page.put(b"\n");
    }

    // How many columns a block has that begins at a column.
    fn block(&self, from: usize) -> usize
        requires { from ≤ self.now.columns }
        ensures { result ≡ min 64 (self.now.columns - from) }
    {
        (self.columns - from).min(BLOCK)
    }

    // Puts the blocks, one below the other.
    pub(crate) fn draw(&self, page: &mut Page) {
        page.put(b"picture\n");
        for block in 0..self.columns.div_ceil(BLOCK) {
            let from = BLOCK * block;
            let count = self.block(from);
            self.put_heading(page, from, count);
            for track in 0..Code6250::TRACKS {
                self.put_row(page, track, from, count);
            }
        }
    }
}
