// The next log of standard input, which stands behind its group count and its length, two bytes each, low one first.
ghost use Rattle.std.specs.Prelude.{◌≡◌, ◌≤◌};
ghost use Rattle.report.specs.Made.{heading_came, behind_heading, CameBehind, Came};
ghost use Rattle.report.specs.Report.{most_bytes, groups_at, length_at};
ghost use Rattle.report.specs.declared.input.Missing.TheVariants.{Unread};

use sense_log::pair_at;
use streams::Failure;

// The bytes in front of a log.
const HEADING: usize = 4;

// The most bytes that a heading can tell of.
pub(crate) const MOST_BYTES: usize = 65535;

// What the heading of a log tells: its groups and its bytes.
#[derive(Drop)]
pub(crate) struct Heading {
    pub groups: usize,
    pub length: usize,
}

impl Heading {
    // What a heading tells.
    fn of(heading: &[u8; HEADING]) -> Heading
        ensures groups { result.groups ≡ groups_at heading.now }
        ensures length { result.length ≡ length_at heading.now }
        ensures within { result.length ≤ most_bytes }
    {
        Heading {
            groups: pair_at(heading, 0) as usize,
            length: pair_at(heading, 2) as usize,
        }
    }
}

// Why no log comes next, though something does: input that is cut, or a read that fails.
#[derive(Clone, Copy, PartialEq, Eq)]
pub(crate) enum Missing {
    Cut,
    Unread(Failure),
}

impl From<Failure> for Missing {
    ghost from_gives = { λ failure missing. missing ≡ Unread failure };

    fn from(failure: Failure) -> Missing {
        Missing::Unread(failure)
    }
}

// Whether a heading comes next, by how reading it ended: a whole one, or none.
fn heading_came(ended: Result<usize, Failure>) -> Result<bool, Missing>
    ensures { result ≡ heading_came ended }
{
    match ended? {
        HEADING => Ok(true),
        0 => Ok(false),
        _ => Err(Missing::Cut),
    }
}

// What came behind a heading, by how reading the log ended: all that it tells of, or fewer bytes.
fn behind_heading(heading: Heading, ended: Result<usize, Failure>) -> Result<Heading, Missing>
    ensures { result ≡ behind_heading heading ended }
{
    if ended? < heading.length {
        return Err(Missing::Cut);
    }
    Ok(heading)
}

// Reads the log behind a heading to the front of the space, and tells what the heading tells.
fn read_behind(
    rt: &HostRuntime,
    bytes: &[u8; HEADING],
    log: &mut [u8; MOST_BYTES],
) -> Result<Heading, Missing>
    ensures { CameBehind bytes.now log.new result }
{
    let heading = Heading::of(bytes);
    let ended = streams::read(&mut rt.stdin(), &mut log[..heading.length]);
    behind_heading(heading, ended)
}

// Reads the next log to the front of the space, and tells its heading; none where nothing comes.
pub(crate) fn read_next(
    rt: &HostRuntime,
    log: &mut [u8; MOST_BYTES],
) -> Result<Option<Heading>, Missing>
    ensures { Came log.new result }
{
    let mut bytes = [0u8; HEADING];
    let ended = streams::read(&mut rt.stdin(), &mut bytes);
    if !heading_came(ended)? {
        return Ok(None);
    }
    let heading = read_behind(rt, &bytes, log)?;
    Ok(Some(heading))
}
