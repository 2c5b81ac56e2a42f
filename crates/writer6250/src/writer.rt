// Writing a record.
ghost use Rattle.std.specs.Prelude.{◌≡◌, ◌*◌, ◌/◌, ◌≤◌, length};
ghost use Rattle.answer.specs.Answer.{told_written, output_after};
ghost use Rattle.rectangular.specs.Constants.{numbers_per_group, bytes_per_group};
ghost use Rattle.record6250.specs.Record.{body, group_bytes, written_record};
ghost use Rattle.record6250.specs.Written.{write_answer};
ghost use Rattle.writer6250.specs.Stored.{groups_stored};
ghost use Rattle.terms.specs.Call as Call;
ghost use Rattle.terms.specs.Reading.{bpi6250};
ghost use Rattle.terms.specs.Terms.{Terms};

use crate::group::store;
use answer::{Reason, Refusal};
use group6250::group::written;
use rectangular::Code6250;

// The place of a group's last byte.
const LAST: usize = Code6250::BYTES - 1;

// The bytes of the last group: the data that are left, the zero bytes, and the byte that counts them.
fn last_group(bytes: &[u8]) -> [u8; Code6250::BYTES]
    ensures { result ≡ group_bytes (length bytes.now / bytes_per_group) (body bytes.now) }
{
    let mut last = [0u8; Code6250::BYTES];
    let left = bytes.len() % Code6250::BYTES;
    let start = bytes.len() - left;
    last[..left].copy_from_slice(&bytes[start..]);
    last[LAST] = (Code6250::MOST_PADDING - left) as u8;
    last
}

// Writes the groups that are full of data. Both calls of it share one compiled loop, so that
// each table is compiled in at one place (decision D11).
fn write_groups(bytes: &[u8], words: &mut [u16])
    requires { numbers_per_group * (length bytes.now / bytes_per_group) ≤ length words.old }
    ensures { words.new ≡ groups_stored (length bytes.now / bytes_per_group) bytes.now words.old }
{
    let full = bytes.len() / Code6250::BYTES;
    for g in 0..full {
        let from = g * Code6250::BYTES;
        let to = g * Code6250::NUMBERS;
        store(&mut words[to..], written(&bytes[from..]));
    }
}

// Writes a record: data as words, into the front of the output.
pub fn write(bytes: &[u8], words: &mut [u16]) -> Result<usize, Refusal>
    ensures answer { told_written result ≡ write_answer (length bytes.now) (length words.old) }
    ensures output { words.new ≡ output_after (told_written result) (written_record bytes.now) words.old }
    ensures terms { Terms (Call.write bpi6250 bytes.now) (told_written result) words.old words.new }
{
    if bytes.len() > Code6250::MOST_DATA {
        return Err(Reason::Length.into());
    }
    let full = bytes.len() / Code6250::BYTES;
    if words.len() < (full + 1) * Code6250::NUMBERS {
        return Err(Reason::Space.into());
    }
    write_groups(bytes, words);
    let last = last_group(bytes);
    let to = full * Code6250::NUMBERS;
    write_groups(&last, &mut words[to..]);
    Ok(full + 1)
}
