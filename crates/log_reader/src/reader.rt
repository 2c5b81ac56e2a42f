// Reading a log back: all of it is looked at before a map is stored.
ghost use Rattle.std.specs.Prelude.{◌≡◌, length};
ghost use Rattle.answer.specs.Answer.{output_after};
ghost use Rattle.sense_log.specs.Back.{maps_of, read_log_answer};
ghost use Rattle.log_reader.specs.Told.{told_back};
ghost use Rattle.terms.specs.Call as Call;
ghost use Rattle.terms.specs.Terms.{Terms};

use crate::log::Log;
use answer::{Reason, Refusal};
use track_counts::Counts;

// Reads a log back with its group count: the marks of each track, or the refusal.
pub fn read_log(groups: usize, log: &[u8], maps: &mut [u16]) -> Result<Counts, Refusal>
    ensures answer { told_back result ≡ read_log_answer groups log.now (length maps.old) }
    ensures maps { maps.new ≡ output_after (told_back result) (maps_of groups log.now) maps.old }
    ensures terms { Terms (Call.read_log groups log.now) (told_back result) maps.old maps.new }
{
    if maps.len() < groups {
        return Err(Reason::Space.into());
    }
    let log = Log::new(groups, log).ok_or(Reason::LogLength)?;
    if !log.content_suits() {
        return Err(Reason::LogContent.into());
    }
    Ok(log.deliver(maps))
}
