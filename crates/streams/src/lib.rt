// Standard input, output and error, as every program uses them: a read that fails is never taken for the end of the
// input, and what cannot be written is told on standard error. A program makes its text on a page and hands it over in one
// piece, when it is whole, or page by page where its output has no bound.
#![tactic(auto)]

mod message;
mod sink;
mod source;

pub use message::unread;
pub use sink::{finish, is_whole, pass_on};
pub use source::read;
pub use transfer::Failure;

// What a program has on its page: its output, or a message for standard error.
#[derive(Clone, Copy, PartialEq, Eq)]
pub enum Text {
    Output,
    Message,
}
