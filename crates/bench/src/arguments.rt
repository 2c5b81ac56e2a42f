// The words of the command line, and what they ask for.
ghost use Rattle.std.specs.Prelude.{◌≡◌, ◌≤◌, length};
ghost use Rattle.bench.specs.Arguments.{request_of};

use std::env::FillError;
use std::rt::Env;

#[derive(Clone, Copy, PartialEq, Eq)]
enum Action {
    Write,
    Read,
}

// 6250 or 800 bits per inch.
#[derive(Clone, Copy, PartialEq, Eq)]
pub(crate) enum Density {
    High,
    Low,
}

#[derive(Clone, Copy, PartialEq, Eq)]
pub(crate) enum Direction {
    Forward,
    Backward,
}

// What is asked for.
#[derive(Clone, Copy, PartialEq, Eq)]
pub(crate) enum Request {
    Write(Density),
    Read(Density, Direction),
}

fn action_of(word: &[u8]) -> Option<Action> {
    match word {
        b"write" => Some(Action::Write),
        b"read" => Some(Action::Read),
        _ => None,
    }
}

fn density_of(word: &[u8]) -> Option<Density> {
    match word {
        b"6250" => Some(Density::High),
        b"800" => Some(Density::Low),
        _ => None,
    }
}

fn direction_of(word: &[u8]) -> Option<Direction> {
    match word {
        b"forward" => Some(Direction::Forward),
        b"backward" => Some(Direction::Backward),
        _ => None,
    }
}

// The request of so many words, the program's own name among them.
fn request_of(
    count: usize,
    action: Option<Action>,
    density: Option<Density>,
    direction: Option<Direction>,
) -> Option<Request>
    ensures { result ≡ request_of count action density direction }
{
    match (action?, count) {
        (Action::Write, 3) => Some(Request::Write(density?)),
        (Action::Read, 4) => Some(Request::Read(density?, direction?)),
        _ => None,
    }
}

// The bytes of a word that is to be known. A word longer than every word that is known does not fit, and is none of them; nor is one
// that is missing.
fn word_at<'a>(rt: &HostRuntime, place: usize, space: &'a mut [u8; 16]) -> &'a [u8]
    ensures { length result.now ≤ 16 }
{
    match rt.arg(place, space) {
        Ok(size) => &space[..size],
        Err(_) => &[],
    }
}

// How many words there are, the program's own name among them. No request has more than four, so that from five on they are not
// counted.
fn word_count(rt: &HostRuntime) -> usize {
    (0..5)
        .find(|place| matches!(rt.arg(*place, &mut []), Err(FillError::NotPresent)))
        .unwrap_or(5)
}

// What the program was started to do.
pub(crate) fn asked(rt: &HostRuntime) -> Option<Request> {
    request_of(
        word_count(rt),
        action_of(word_at(rt, 1, &mut [0; 16])),
        density_of(word_at(rt, 2, &mut [0; 16])),
        direction_of(word_at(rt, 3, &mut [0; 16])),
    )
}
