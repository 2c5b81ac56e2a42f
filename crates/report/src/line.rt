// What the report puts on its page: a line for each log, and the last one.
ghost use Rattle.std.specs.Prelude.{◌≡◌, ◌+◌, ◌^◌, ◌≤◌, ◌<◌, length};
ghost use Rattle.page.specs.Page.{Printed};
ghost use Rattle.sense_log.specs.Log.{marks};
ghost use Rattle.report.specs.Made.{LogPut, NextPut};
ghost use Rattle.report.specs.Report.{maps_lent, most_marks, count_text};

use crate::input::{MOST_BYTES, Missing, read_next};
use answer::Reason;
use answer_text::put_refusal;
use log_reader::read_log;
use page::Page;
use streams::Failure;

// So many maps are lent, one for each group that a heading can tell of.
pub(crate) const MAPS: usize = 65535;

// Puts a line with a number: the marks of a log, or the total.
#[tactic(auto, using(page::proofs::Printed::after_both))]
fn put_count(page: &mut Page, count: u64)
    ensures { Printed (count_text count) page.old page.new }
{
    page.decimal(count);
    page.put(b"\n");
}

// The marks of a log, whose maps these are: one for each track bit.
fn count_marks(maps: &[u16]) -> u64
    requires { length maps.now ≤ maps_lent }
    ensures { result ≡ marks maps.now }
{
    let mut count = 0;
    for map in maps {
        count += u64::from(map.count_ones());
    }
    count
}

// Puts the line of a log of so many groups, behind logs with so many marks, and tells how many there are with its own; none where it is
// refused, and its line is the last.
fn put_log(
    page: &mut Page,
    total: u64,
    groups: usize,
    log: &[u8],
    maps: &mut [u16; MAPS],
) -> Option<u64>
    requires { total + most_marks < 2 ^ 64 }
    ensures { LogPut groups log.now total page.old page.new result }
{
    match read_log(groups, log, maps) {
        Ok(_) => {
            let count = count_marks(&maps[..groups]);
            put_count(page, count);
            Some(total + count)
        }
        Err(refusal) => {
            put_refusal(page, refusal);
            None
        }
    }
}

// Reads the next log, and puts the line that is due; tells how many marks there are then, or none where the line is the last.
pub(crate) fn put_next(
    rt: &HostRuntime,
    page: &mut Page,
    total: u64,
    log: &mut [u8; MOST_BYTES],
    maps: &mut [u16; MAPS],
) -> Result<Option<u64>, Failure>
    requires { total + most_marks < 2 ^ 64 }
    ensures { NextPut total page.old page.new result }
{
    match read_next(rt, log) {
        Ok(Some(heading)) => Ok(put_log(page, total, heading.groups, &log[..heading.length], maps)),
        Ok(None) => {
            put_count(page, total);
            Ok(None)
        }
        Err(Missing::Cut) => {
            put_refusal(page, Reason::LogLength.into());
            Ok(None)
        }
        Err(Missing::Unread(failure)) => Err(failure),
    }
}
