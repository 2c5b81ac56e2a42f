// Reading a record at 6250 bits per inch, forward and backward (document 01, "The 6250 record" and "Backward").

#![tactic(auto)]

mod reader;

pub use reader::read_record;
pub use scan6250::Figures;
