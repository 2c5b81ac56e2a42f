// A number out of text. Every step is an equation; a number above 65,535 and what is no number are faults, so that a line is told
// and nothing is cut off.
ghost use Rattle.std.specs.Prelude.{◌≡◌, ◌≤◌, length, drop, Ok, Err};
ghost use Rattle.text.specs.Number.{separating, entered_byte, scanned};

// Why a number is none that is wanted: it has a byte that is no digit, or it is above 65,535, which no word, character or map is.
#[derive(Clone, Copy, PartialEq, Eq)]
pub enum NumberFault {
    NotANumber,
    TooLarge,
}

// A number of the text, and the place behind it.
#[derive(Drop)]
pub(crate) struct Number {
    pub value: Result<u16, NumberFault>,
    pub end: usize,
}

// Whether a number ends in front of this byte. A carriage return counts as blank, so that a text from another machine is read.
pub(crate) fn separates(byte: u8) -> bool
    ensures { result ≡ separating byte }
{
    // most bytes of a text are behind the blank, and that is one test
    if byte > b' ' {
        return false;
    }
    matches!(byte, b'\n' | b' ' | b'\t' | b'\r')
}

// A byte entered into a number.
#[tactic(auto, unfolding(crate::specs::Number::entered_byte))]
fn entered(number: u16, byte: u8) -> Result<u16, NumberFault>
    ensures { result ≡ entered_byte (Ok number) byte }
{
    if !byte.is_ascii_digit() {
        return Err(NumberFault::NotANumber);
    }
    let value = 10 * u32::from(number) + u32::from(byte - b'0');
    u16::try_from(value).map_err(|_| NumberFault::TooLarge)
}

// What is wrong once one byte more came. However long the number is, a further digit leaves it too large.
#[tactic(auto, unfolding(crate::specs::Number::entered_byte))]
fn faulty_with(cause: NumberFault, byte: u8) -> NumberFault
    ensures { Err result ≡ entered_byte (Err cause) byte }
{
    if byte.is_ascii_digit() {
        return cause;
    }
    NumberFault::NotANumber
}

// What is left of a number with a fault.
fn faulty(text: &[u8], at: usize, cause: NumberFault) -> Number
    requires { at ≤ length text.now }
    ensures { result ≡ scanned (Err cause) at (drop at text.now) }
{
    let mut cause = cause;
    let mut end = at;
    // by hand, as in `number_at`
    while end < text.len() {
        if separates(text[end]) {
            break;
        }
        cause = faulty_with(cause, text[end]);
        end += 1;
    }
    Number {
        value: Err(cause),
        end,
    }
}

// The number that begins at a place, up to the next blank, the end of the line or the end of the text.
pub(crate) fn number_at(text: &[u8], at: usize) -> Number
    requires { at ≤ length text.now }
    ensures { result ≡ scanned (Ok 0) at (drop at text.now) }
{
    let mut value = 0;
    let mut end = at;
    // By hand and in one pass, in which a digit is tested once and a fault leaves the loop: to look for the end first, and to carry a
    // fault along, takes 1.6 times the instructions, and a reading of text spends most of its time here.
    while end < text.len() {
        match entered(value, text[end]) {
            Ok(next) => value = next,
            Err(_) if separates(text[end]) => break,
            Err(cause) => return faulty(text, end + 1, cause),
        }
        end += 1;
    }
    Number {
        value: Ok(value),
        end,
    }
}
