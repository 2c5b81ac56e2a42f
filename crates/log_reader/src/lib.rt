// Reading a sense log back with its group count (document 02, request 2.1): the map of the changed tracks of each group.

#![tactic(auto)]

mod bits;
mod log;
mod reader;

pub use reader::read_log;
