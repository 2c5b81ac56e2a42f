// One read or one write, made again where a signal came first.
#![tactic(auto)]

ghost use Rattle.std.specs.Prelude.{◌≡◌};
ghost use Rattle.std.specs.Io.{ReadsAtMost, WritesAtMost};
ghost use Rattle.std.specs.Io.KnownBytes.{ReadConsumes, WriteAppends};
ghost use Rattle.transfer.specs.Failure.{error_number, number_of};
ghost use Rattle.transfer.specs.Came.{failure_of, moved_by, ended_by};

use std::io;
use std::io::{Read, Write};

// A read or a write that failed, with the number of the error as the system has it; 0 stands for one that is not the system's, and
// is printed so (`error 0`).
#[derive(Clone, Copy, PartialEq, Eq)]
pub struct Failure {
    pub number: u32,
}

// The error of a call that a signal interrupts.
pub const INTERRUPTED: u32 = 4;

// How often in a row a call that signals interrupt is made: a program has to end (D24).
const TRIES: u32 = 1000000;

// The number of an error, as the system has it; none is below 0.
fn error_number(error: i32) -> u32
    ensures { result ≡ error_number error }
{
    u32::try_from(error).unwrap_or(0)
}

// The number of an error of reading or writing; 0 stands for one that is not the system's.
fn number_of(error: &io::Error) -> u32
    ensures { result ≡ number_of error.now }
{
    error.raw_os_error().map_or(0, error_number)
}

impl From<io::Error> for Failure {
    ghost from_gives = { λ error failure. failure ≡ failure_of error };

    fn from(error: io::Error) -> Failure {
        Failure {
            number: number_of(&error),
        }
    }
}

// What came of a call that gave this answer: how many bytes it moved, or why it moved none; nothing where a signal came first, and
// the call is to be made again.
fn came(answer: io::Result<usize>) -> Option<Result<usize, Failure>>
    ensures { result ≡ moved_by answer }
{
    match answer.map_err(Failure::from) {
        Err(failure) if failure.number == INTERRUPTED => None,
        settled => Some(settled),
    }
}

// How a call ended that was made again as long as a signal came first: as it settled, or, where a signal came first every time, in that
// error.
pub fn end(last: Option<Result<usize, Failure>>) -> Result<usize, Failure>
    ensures { result ≡ ended_by last }
{
    match last {
        Some(settled) => settled,
        None => Err(Failure {
            number: INTERRUPTED,
        }),
    }
}

// One read into the space, made again where a signal came first.
pub fn read_once<R: Read>(input: &mut R, space: &mut [u8]) -> Result<usize, Failure>
    ensures within { ReadsAtMost result space.new }
    ensures bytes { ReadConsumes (R.remaining input.old) (R.remaining input.new) result space.new }
{
    'tries: for _ in 0..TRIES {
        let last = came(input.read(space));
        if last.is_some() {
            return end(last);
        }
    }
    end(None)
}

// One write, made again where a signal came first.
// Not one function with the above: it would take the call as a closure, whose clauses could name neither what the reader has left nor
// what the writer holds.
pub fn write_once<W: Write>(to: &mut W, bytes: &[u8]) -> Result<usize, Failure>
    ensures within { WritesAtMost result bytes.now }
    ensures bytes { WriteAppends (W.contents to.old) (W.contents to.new) result bytes.now }
{
    'tries: for _ in 0..TRIES {
        let last = came(to.write(bytes));
        if last.is_some() {
            return end(last);
        }
    }
    end(None)
}
