// An input, as standard input is, read to its end.
ghost use Rattle.std.specs.Io.{ReadsAtMost};
ghost use Rattle.streams.specs.Bytes.{WasRead};

use std::io::Read;
use transfer::{Failure, read_once};

// Reads until the space is full, the input ends or a read fails. Fewer bytes than there is space for are the whole rest of
// the input.
pub fn read<R: Read>(input: &mut R, space: &mut [u8]) -> Result<usize, Failure>
    ensures filled { ReadsAtMost result space.new }
    ensures bytes { WasRead result space.new (R.remaining input.old) (R.remaining input.new) }
{
    let mut count = 0;
    // no `for`: how far a turn goes is what the read gives
    while count < space.len() {
        let more = read_once(input, &mut space[count..])?;
        if more == 0 {
            break;
        }
        count += more;
    }
    Ok(count)
}
