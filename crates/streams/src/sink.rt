// Standard output and standard error: what a program has on its page is handed over.
ghost use Rattle.std.specs.Prelude.{◌≡◌, ◌+◌, ◌^◌, ◌<◌, length};
ghost use Rattle.std.specs.Io.{WritesAtMost};
ghost use Rattle.page.specs.Page.{held_count};
ghost use Rattle.streams.specs.Bytes.{WasWritten, on_page};
ghost use Rattle.streams.specs.Ended.{Taken, is_whole, Left, ended_behind, Passed, Finished};
ghost use Rattle.streams.specs.Message.{unwritten_text};

use crate::Text;
use crate::message::put_unwritten;
use page::{PAGE, Page};
use std::fs::OpenOptions;
use std::io::Write;
use std::os::unix::fs::FileTypeExt;
use std::{fs, io};
use transfer::{Failure, write_once};

// The files that standard output and standard error go to, by the names that the system has for them.
const OUTPUT: &str = "/proc/self/fd/1";

const ERRORS: &str = "/proc/self/fd/2";

// Whether a stream goes to a file, of which there may be no more space. A pipe, a socket and a terminal have no end, and take
// later what they did not take at once.
fn is_file(rt: &HostRuntime, path: &str) -> bool {
    fs::metadata(rt, path).is_ok_and(|found| {
        let kind = found.file_type();
        kind.is_file() || kind.is_block_device()
    })
}

// Hands bytes over until all are taken, a file takes no more or a write fails. Not one function with `read`: what is left to read and what was
// written are two clauses, and a file ends only this one.
fn send<W: Write>(to: &mut W, file: bool, bytes: &[u8]) -> Result<usize, Failure>
    ensures taken { WritesAtMost result bytes.now }
    ensures bytes { WasWritten result bytes.now (W.contents to.old) (W.contents to.new) }
{
    let mut count = 0;
    // no `for`: how far a turn goes is what the write takes
    while count < bytes.len() {
        let more = write_once(to, &bytes[count..])?;
        if more == 0 {
            break;
        }
        count += more;
        // A file that took only some of the bytes is full or at its limit. Another write would fail, and past a limit the system ends
        // the process for it, so that nobody could tell.
        if file && count < bytes.len() {
            break;
        }
    }
    Ok(count)
}

// Hands over what a page holds; of a text that did not fit on it, nothing.
fn send_page<W: Write>(to: &mut W, file: bool, page: &Page) -> Result<usize, Failure>
    ensures taken { Taken result (held_count page.now) }
    ensures bytes { WasWritten result (on_page page.now) (W.contents to.old) (W.contents to.new) }
{
    match page.text() {
        Some(bytes) => send(to, file, bytes),
        None => Ok(0),
    }
}

// Whether reading or writing went to the last of so many bytes.
pub fn is_whole(sent: Result<usize, Failure>, all: usize) -> bool
    ensures { result ≡ is_whole sent all }
{
    sent.is_ok_and(|count| count == all)
}

// Hands a message over to standard error.
fn send_message(rt: &HostRuntime, page: &Page) -> Result<usize, Failure>
    ensures { Taken result (held_count page.now) }
{
    send_page(&mut rt.stderr(), is_file(rt, ERRORS), page)
}

// Tells on standard error if what a page holds was not taken whole, behind so many bytes that had gone out before.
fn tell(rt: &HostRuntime, page: &mut Page, sent: Result<usize, Failure>, earlier: usize)
    requires { Taken sent (held_count page.old) × (earlier + held_count page.old < 2 ^ 64) }
    ensures { Left (is_whole sent (held_count page.old)) (unwritten_text (ended_behind earlier sent) (earlier + held_count page.old)) page.old page.new }
{
    let held = page.count();
    if !is_whole(sent, held) {
        put_unwritten(page, sent.map(|count| earlier + count), earlier + held);
        // where nobody takes the message either, nobody is left to be told
        let _ = send_message(rt, page);
    }
}

// Hands over what a program has of its output by now, behind so many bytes that it handed over before, and tells on
// standard error if it could not be written. Unless it is the last, more is to come, if this was taken whole. With the last a file is
// stored: one across a network may tell only then that it took nothing.
pub fn pass_on(
    rt: &HostRuntime,
    page: &mut Page,
    earlier: usize,
    last: bool,
) -> Result<usize, Failure>
    requires { earlier + held_count page.old < 2 ^ 64 }
    ensures { Passed earlier page.old page.new result }
{
    let sent = output(rt, page, last);
    tell(rt, page, sent, earlier);
    sent
}

// Hands over what a page holds of a program's output, and has a file stored with the last.
fn output(rt: &HostRuntime, page: &Page, last: bool) -> Result<usize, Failure>
    ensures { Taken result (held_count page.now) }
{
    let file = is_file(rt, OUTPUT);
    let count = send_page(&mut rt.stdout(), file, page)?;
    if last && file && count == page.count() {
        store(rt)?;
    }
    Ok(count)
}

// Has the system store the file that standard output goes to. One that cannot be opened again is left to it.
fn store(rt: &HostRuntime) -> io::Result<()> {
    match OpenOptions::new().write(true).open(rt, OUTPUT) {
        Ok(file) => file.sync_all(),
        Err(_) => Ok(()),
    }
}

// Hands over a program's whole text, and tells on standard error what of its output could not be written.
pub fn finish(rt: &HostRuntime, text: Text, page: &mut Page) -> Result<usize, Failure>
    ensures { Finished text page.old page.new result }
{
    match text {
        Text::Message => send_message(rt, page),
        Text::Output => {
            // with nothing before it, what a page holds can be counted
            prove!(page.count() <= PAGE + 1);
            pass_on(rt, page, 0, true)
        }
    }
}
