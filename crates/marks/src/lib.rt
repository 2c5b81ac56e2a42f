// What is marked in the picture of a record: each track in each column, corrected, pointed or refused.

#![tactic(auto)]

mod forward;
pub mod marks;
