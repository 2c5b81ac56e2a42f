// What is printed: answers, numbers and data for standard output, faults for standard error. Each function puts its text behind what
// the page holds.
ghost use Rattle.std.specs.Prelude.{◌<◌};

use crate::reading::{Cause, Fault};
use page::Page;
use streams::Text;
use text::NumberFault;

// Values, so many to a line, each as it is put.
fn lines<T: Copy, F: Fn(&mut Page, T)>(page: &mut Page, values: &[T], width: usize, put: F)
    requires width { 0 < width }
    requires put { F.IsAlwaysCallable put }
{
    for line in values.chunks(width) {
        for (k, value) in line.iter().enumerate() {
            if k > 0 {
                page.put(b" ");
            }
            put(page, *value);
        }
        page.put(b"\n");
    }
}

// Words or characters, nine to a line.
pub(crate) fn numbers(page: &mut Page, values: &[u16]) {
    lines(page, values, 9, |page, value| page.decimal(value as u64));
}

// Bytes in hexadecimal, sixteen to a line, after a line that says what they are.
pub(crate) fn data(page: &mut Page, bytes: &[u8]) {
    page.put(b"data\n");
    lines(page, bytes, 16, |page, byte| page.hexadecimal(byte as u64));
}

// A figure of a delivery, a space in front of it.
pub(crate) fn figure(page: &mut Page, value: usize) {
    page.put(b" ");
    page.decimal(value as u64);
}

// What is wrong with a line.
fn cause(page: &mut Page, cause: Cause) {
    match cause {
        Cause::Number(NumberFault::NotANumber) => page.put(b": not a number\n"),
        Cause::Number(NumberFault::TooLarge) => page.put(b": a number above 65535\n"),
        Cause::NotAGroup(numbers) => {
            page.put(b": ");
            page.decimal(numbers as u64);
            page.put(b" numbers, where a group has nine words and may have a map\n");
        }
    }
}

// The line of a text that was not read, and why.
pub(crate) fn fault(page: &mut Page, fault: Fault) -> Text {
    page.put(b"line ");
    page.decimal(fault.line as u64);
    cause(page, fault.cause);
    Text::Message
}

pub(crate) fn too_long(page: &mut Page) -> Text {
    page.put(b"the text is longer than 65535 bytes\n");
    Text::Message
}

pub(crate) fn usage(page: &mut Page) -> Text {
    page.put(b"usage: bench write 6250 < data\n");
    page.put(b"       bench write 800 < data\n");
    page.put(b"       bench read 6250 forward|backward < reading\n");
    page.put(b"       bench read 800 forward|backward < reading\n");
    Text::Message
}
