//! What `monitor` asks: its words come in hex digits, and one of a few commands comes out, or none.

ghost use Rattle.std.specs.Prelude.{◌<◌, IfSome};

use crate::command::Monitor;
use crate::parts::split_at;
use tm_model::{Event, Interference};

// The most bytes of such a command that are read.
const MOST_BYTES: usize = 64;

/// What the hex digits of a command of `monitor` ask: `help`, `why`, `sets`, `pending`, `history` with a decimal
/// number, 10 where there is none, `event` with the name of one, or `drain`, which is an event of its own.
pub fn monitor_in(digits: &[u8]) -> Monitor {
    let mut bytes = [0; MOST_BYTES];
    let count = digits.len() / 2;
    if count > MOST_BYTES || hex::decode_to_slice(digits, &mut bytes[..count]).is_err() {
        return Monitor::Other;
    }
    let (word, argument) = split_at(b' ', &bytes[..count]);
    if word == b"help".as_slice() {
        Monitor::Help
    } else if word == b"why".as_slice() {
        Monitor::Why
    } else if word == b"sets".as_slice() {
        Monitor::Sets
    } else if word == b"pending".as_slice() {
        Monitor::Pending
    } else if word == b"drain".as_slice() {
        Monitor::Event(Event::Drain)
    } else if word == b"history".as_slice() {
        match decimal_in(argument) {
            Some(number) => Monitor::History(number),
            None => Monitor::Other,
        }
    } else if word == b"event".as_slice() {
        event_in(argument)
    } else {
        Monitor::Other
    }
}

// The event of a name.
fn event_in(name: &[u8]) -> Monitor {
    if name == b"interrupt".as_slice() {
        aborted_by(Interference::Interrupt)
    } else if name == b"eviction".as_slice() {
        aborted_by(Interference::Eviction)
    } else if name == b"snoop".as_slice() {
        aborted_by(Interference::Snoop)
    } else {
        Monitor::Other
    }
}

// The event that an abort from outside of the program is.
fn aborted_by(by: Interference) -> Monitor {
    Monitor::Event(Event::Abort(by))
}

// The number of at most three decimal digits, 10 where there are none.
fn decimal_in(text: &[u8]) -> Option<u32> {
    match text {
        [] => Some(10),
        [ones] => digit_of(*ones),
        [tens, ones] => Some(10 * digit_of(*tens)? + digit_of(*ones)?),
        [hundreds, tens, ones] => {
            Some(100 * digit_of(*hundreds)? + 10 * digit_of(*tens)? + digit_of(*ones)?)
        }
        _ => None,
    }
}

fn digit_of(byte: u8) -> Option<u32>
    ensures { IfSome result (λ digit. digit < 10) }
{
    if byte.is_ascii_digit() {
        Some(u32::from(byte - b'0'))
    } else {
        None
    }
}
