// The 4-to-5 group code of 6250-bpi recording (document 01, "The 6250 group"): the word of each track byte,
// and how each word of ten bits reads, as tables.

#![tactic(auto)]

mod reading;
mod writing;

pub use reading::{Readings, readings};
pub use writing::word;
