// Which track accounts for the sums of a reading at 800 bits per inch (document 003): the error pattern from its register,
// and the nine tracks tried on the sums. Nothing here knows the characters.

#![tactic(auto)]

mod pattern;
mod track;

pub use pattern::unshifted;
pub use track::{Unlocated, agree, located};
