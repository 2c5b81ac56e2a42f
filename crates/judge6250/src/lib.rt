// How one group of nine tracks that was read is judged: which errors its syndromes tell of, which group of the code fits it, and
// in which tracks it differs (document 000, "Error correction capability"). The definitions, over every width, are in the crate
// rectangular.

#![tactic(auto)]

pub mod errors;
pub mod judge;
