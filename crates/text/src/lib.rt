// Numbers out of text, as programs are handed them: decimal, parted by blanks, a line at a time.
#![tactic(auto)]

mod line;
mod number;

pub use line::{LineFault, Row, line_at};
pub use number::NumberFault;
