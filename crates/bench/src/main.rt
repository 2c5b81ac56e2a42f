// The bench program, for whoever looks at one bad record: writes a record of either density as text, or
// reads one from text and shows what was delivered or refused, and where on the tracks.
#![tactic(auto)]

mod arguments;
mod at6250;
mod at800;
mod picture;
mod print;
mod reading;
mod record;

use arguments::{Density, Direction, Request};
use page::Page;
use streams::Text;

// The text of a reading has so many bytes at most.
const MOST_TEXT: usize = 65535;

// What is made of the input: data, or the text of a reading.
fn done(page: &mut Page, request: Request, input: &[u8]) -> Text {
    match request {
        Request::Write(Density::High) => record::write::<at6250::Groups>(page, input),
        Request::Write(Density::Low) => record::write::<at800::Characters>(page, input),
        Request::Read(..) if input.len() > MOST_TEXT => print::too_long(page),
        Request::Read(Density::High, direction) => {
            at6250::read(page, input, direction == Direction::Backward)
        }
        Request::Read(Density::Low, direction) => {
            at800::read(page, input, direction == Direction::Backward)
        }
    }
}

// What is made of standard input. There is space for one byte more than the longest text, and so for more than any record's data: what
// is too long is seen, and refused. A function of its own, so that a wrong request does not clear the space.
fn read(rt: &HostRuntime, page: &mut Page, request: Request) -> Text {
    let mut input = io::large_buffer();
    match streams::read(&mut rt.stdin(), &mut input) {
        Ok(count) => done(page, request, &input[..count]),
        Err(failure) => streams::unread(page, failure),
    }
}

// What is made of a request. A wrong one leaves standard input alone.
fn answer(rt: &HostRuntime, page: &mut Page, request: Option<Request>) -> Text {
    match request {
        Some(request) => read(rt, page, request),
        None => print::usage(page),
    }
}

fn main(rt: HostRuntime) {
    let mut page = Page::new();
    let text = answer(&rt, &mut page, arguments::asked(&rt));
    // what could not be written is told by then
    let _ = streams::finish(&rt, text, &mut page);
}
