// Copying a record at 800 bits per inch onto one at 6250, forward and backward (document 02, request 2.6).

#![tactic(auto)]

mod copier;

pub use copier::{Copied, copy_record};
