// Reading a record at 800 bits per inch, forward and backward (document 01, "The 800 record" and "Backward").

#![tactic(auto)]

mod reader;

pub use reader::{read_record, store};
pub use scan800::{Figures, Passed, Reading};
