// The report program (document 02, request 2.1): reads sense logs from standard input, each after its group count and its
// length, and prints a line with the number of marks of each and one with their total; or the refusal of the first that is bad
// or cut.
#![tactic(auto)]

mod input;
mod line;
mod part;
mod whole;

ghost use Rattle.streams.specs.Ended.{Tells};
ghost use Rattle.report.specs.Made.{Reported};
ghost use Rattle.report.specs.Report.{too_many_text};

use page::Page;
use part::Output;
use streams::Text;
use whole::{Stop, make_report};

// The message of more logs than are counted.
fn too_many(page: &mut Page) -> Text
    ensures { Tells too_many_text page.new result }
{
    page.clear();
    page.put(b"cannot report more than 2251799813685248 logs\n");
    Text::Message
}

// Hands over the last of a report, and tells why it is not whole, also where this last part could not be written.
fn hand_over(rt: &HostRuntime, output: &mut Output, made: Result<(), Stop>)
    requires { Reported output.old made }
{
    match made {
        Ok(()) => {
            let _ = output.hand_part(rt, true);
        }
        Err(Stop::Unread(failure)) => {
            let _ = output.hand_part(rt, true);
            let text = streams::unread(&mut output.page, failure);
            let _ = streams::finish(rt, text, &mut output.page);
        }
        Err(Stop::TooMany) => {
            let _ = output.hand_part(rt, true);
            let text = too_many(&mut output.page);
            let _ = streams::finish(rt, text, &mut output.page);
        }
        Err(Stop::Told) => {}
    }
}

fn main(rt: HostRuntime) {
    let mut output = Output::new();
    let mut log = [0u8; input::MOST_BYTES];
    let mut maps = [0u16; line::MAPS];
    let made = make_report(&rt, &mut output, &mut log, &mut maps);
    hand_over(&rt, &mut output, made);
}
