// The report of all logs of standard input.
ghost use Rattle.std.specs.Prelude.{[], ◌≡◌, Ok};
ghost use Rattle.report.specs.Made.{Due, Bounded, RoomMade, Reported};
ghost use Rattle.report.specs.declared.whole.Stop.TheVariants.{Unread, Told};

use crate::input::MOST_BYTES;
use crate::line::{MAPS, put_next};
use crate::part::{Output, Unwritten};
use page::PAGE;
use streams::Failure;

// A program has to end, and a total has to fit: a log has 5,274 marks at most, and so many logs fewer than 2^64.
const MOST_LOGS: u64 = 2251799813685248;

// Where a page holds more than this, the longest line might not fit.
const NEARLY_FULL: usize = PAGE - 64;

// Why a report is not whole: a read failed; there are more logs than are counted; or a part of it could not be written, and that was
// told.
#[derive(Clone, Copy, PartialEq, Eq)]
pub(crate) enum Stop {
    Unread(Failure),
    TooMany,
    Told,
}

impl From<Failure> for Stop {
    ghost from_gives = { λ failure stop. stop ≡ Unread failure };

    fn from(failure: Failure) -> Stop {
        Stop::Unread(failure)
    }
}

impl From<Unwritten> for Stop {
    ghost from_gives = { λ _ stop. stop ≡ Told };

    fn from(_unwritten: Unwritten) -> Stop {
        Stop::Told
    }
}

// Sees to it that the page has room for a line: one that is nearly full is handed over.
fn make_room(rt: &HostRuntime, output: &mut Output) -> Result<(), Unwritten>
    requires { Due output.old × Bounded output.old }
    ensures { RoomMade output.old output.new result }
{
    if output.page.count() > NEARLY_FULL {
        output.hand_part(rt, false)?;
        output.page.clear();
    }
    Ok(())
}

// Makes the report of standard input.
pub(crate) fn make_report(
    rt: &HostRuntime,
    output: &mut Output,
    log: &mut [u8; MOST_BYTES],
    maps: &mut [u16; MAPS],
) -> Result<(), Stop>
    requires { (output.old.page ≡ Ok []) × (output.old.handed ≡ 0) }
    ensures { Reported output.new result }
{
    let mut total: u64 = 0;
    'logs: for _ in 0..MOST_LOGS {
        make_room(rt, output)?;
        match put_next(rt, &mut output.page, total, log, maps)? {
            Some(sum) => total = sum,
            None => return Ok(()),
        }
    }
    Err(Stop::TooMany)
}
