// The groups of a 6250 reading as they are lent (document 01, "The 6250 record" and "Backward"): the first with a
// stray bit, the walk over them in tape order, and how each is received and judged.

#![tactic(auto)]

mod reading;
mod received;
mod stray;
mod walker;

pub use reading::Reading;
pub use stray::first_stray;
pub use walker::GroupWalker;
