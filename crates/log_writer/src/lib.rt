// Writing the sense log of a reading at 6250 bits per inch, forward and backward (document 02, request 2.1). No data are written.

#![tactic(auto)]

mod store;
mod writer;

pub use writer::write_log;
