// Writing a record at 800 bits per inch (document 01, "The 800 record").

#![tactic(auto)]

mod character;
mod writer;

pub use writer::write;
