// What is told of a read or a write that failed: the number of the error, and for the usual ones what it means.
ghost use Rattle.std.specs.Prelude.{[], ◌≡◌, Ok};
ghost use Rattle.page.specs.Page.{Printed};
ghost use Rattle.streams.specs.Message.{meaning_text, error_text, cut_text, unread_text, unwritten_text};
ghost use Rattle.streams.specs.Ended.{Tells};

use crate::Text;
use page::Page;
use transfer::{Failure, INTERRUPTED};

// The usual errors by number, as Linux has them: EIO, EBADF, EAGAIN, EISDIR, EFBIG, ENOSPC and EPIPE.
const DEVICE_FAILED: u32 = 5;

const NOT_OPEN: u32 = 9;

const NOT_READY: u32 = 11;

const DIRECTORY: u32 = 21;

const AT_LIMIT: u32 = 27;

const NO_SPACE: u32 = 28;

const NO_READER: u32 = 32;

// What the number of an error means; nothing where it is none of the usual ones.
#[tactic(auto, unfolding(crate::specs::Message::meaning_text))]
fn meaning(number: u32) -> &'static [u8]
    ensures { result.now ≡ meaning_text number }
{
    match number {
        INTERRUPTED => b", interrupted",
        DEVICE_FAILED => b", the device failed",
        NOT_OPEN => b", it is closed or open the other way",
        NOT_READY => b", it is not ready",
        DIRECTORY => b", it is a directory",
        AT_LIMIT => b", the file is at its limit",
        NO_SPACE => b", no space is left",
        NO_READER => b", nobody reads it",
        _ => b"",
    }
}

// Puts the error of a failure, and the end of the line.
#[tactic(auto, using(page::proofs::Printed::after_both))]
fn put_error(page: &mut Page, failure: Failure)
    ensures { Printed (error_text failure.number) page.old page.new }
{
    page.put(b"error ");
    page.decimal(failure.number as u64);
    page.put(meaning(failure.number));
    page.put(b"\n");
}

// Puts how much of an output was taken, and the end of the line.
#[tactic(auto, using(page::proofs::Printed::after_both))]
fn put_cut(page: &mut Page, count: usize, all: usize)
    ensures { Printed (cut_text count all) page.old page.new }
{
    page.put(b"cut behind ");
    page.decimal(count as u64);
    page.put(b" of ");
    page.decimal(all as u64);
    page.put(b" bytes\n");
}

// The message of an input that could not be read.
#[tactic(auto, using(page::proofs::Printed::after_both))]
pub fn unread(page: &mut Page, failure: Failure) -> Text
    ensures { Tells (unread_text failure.number) page.new result }
{
    page.clear();
    page.put(b"cannot read standard input: ");
    put_error(page, failure);
    Text::Message
}

// The message of an output of so many bytes that could not be written whole.
#[tactic(auto, using(page::proofs::Printed::after_both))]
pub(crate) fn put_unwritten(page: &mut Page, sent: Result<usize, Failure>, all: usize)
    ensures { Printed (unwritten_text sent all) (Ok []) page.new }
{
    page.clear();
    page.put(b"cannot write standard output: ");
    match sent {
        Ok(count) => put_cut(page, count, all),
        Err(failure) => put_error(page, failure),
    }
}
