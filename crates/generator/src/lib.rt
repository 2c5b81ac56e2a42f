// The generator matrix of the 6250 code, as a table in read-only memory: what each information byte adds to the
// eight tracks.

#![tactic(auto)]

mod parts;

pub use parts::part;
