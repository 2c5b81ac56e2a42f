// Writing a record at 6250 bits per inch (document 01, "The 6250 record").

#![tactic(auto)]

mod group;
mod writer;

pub use writer::write;
