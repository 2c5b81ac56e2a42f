// A line of numbers out of text.
ghost use Rattle.std.specs.Prelude.{◌≡◌, ◌≤◌, length, set};
ghost use Rattle.text.specs.Line.{line_at, row_told};

use crate::number::{NumberFault, number_at, separates};

// So much of a line: how many numbers it has, and the place of its end, or of what is wrong with it.
#[derive(Clone, Copy)]
pub struct Row {
    pub count: usize,
    pub end: usize,
}

// Why a line ends before its end, and what was read of it.
#[derive(Clone, Copy)]
pub struct LineFault {
    pub cause: NumberFault,
    pub before: Row,
}

// Stores a value, where there is space for it.
fn put(values: &mut [u16], at: usize, value: u16)
    ensures { values.new ≡ set values.old at value }
{
    if at < values.len() {
        values[at] = value;
    }
}

// Reads the line that begins at a place. Its numbers go to the front of the row, as many as that holds; the
// first number that is none, or is above 65,535, ends it.
pub fn line_at(text: &[u8], at: usize, row: &mut [u16]) -> Result<Row, LineFault>
    requires { at ≤ length text.now }
    ensures line { result ≡ (line_at text.now at row.old).0 }
    ensures row { row.new ≡ (line_at text.now at row.old).1 }
    ensures within { (at ≤ (row_told result).end) × ((row_told result).end ≤ length text.now) × ((row_told result).count ≤ (row_told result).end) × (length row.new ≡ length row.old) }
{
    let mut count = 0;
    let mut end = at;
    // By hand, since a turn passes a blank or a whole number, and the place is told too.
    while end < text.len() {
        if separates(text[end]) {
            if text[end] == b'\n' {
                break;
            }
            end += 1;
            continue;
        }
        let number = number_at(text, end);
        match number.value {
            Ok(value) => put(row, count, value),
            Err(cause) => {
                let before = Row { count, end };
                return Err(LineFault { cause, before });
            }
        }
        count += 1;
        end = number.end;
    }
    Ok(Row { count, end })
}
