//! Statuses as words: [`status`] of a cause, and [`causes`] of any word.
//!
//! Want of room and too deep a nesting have the same bits, and many causes none, so the way back does not end at the
//! cause. Which bits say that it may succeed on a retry is decided here: for a conflict alone.

ghost use Rattle.std.specs.Prelude.{◌≡◌, ◌<◌};
ghost use Rattle.tm_status.specs.Status.{status_of, causes_of, told_by, has_bit};

use crate::cause::{Cause, Causes};

/// The status of an abort for this cause, which EAX holds at the fallback: `nested` says that the depth was above 1.
pub fn status(cause: Cause, nested: bool) -> u32
    ensures value { result ≡ status_of cause nested }
    ensures tells { causes_of result ≡ told_by cause nested }
{
    let reason = match cause {
        Cause::Conflict => 0x06,
        Cause::Capacity | Cause::Nest => 0x08,
        Cause::Explicit(argument) => u32::from(argument) * 0x100_0000 + 0x01,
        Cause::Debug => 0x10,
        Cause::Other => 0x00,
    };
    if nested { reason + 0x20 } else { reason }
}

/// What a status tells, by its bits 0 to 5 and, where bit 0 is set, 31 to 24. All other bits are ignored.
pub fn causes(status: u32) -> Causes
    ensures { result ≡ causes_of status }
{
    let argument = (status / 0x100_0000) as u8;
    Causes {
        explicit: if is_set(status, 0) {
            Some(argument)
        } else {
            None
        },
        retry: is_set(status, 1),
        conflict: is_set(status, 2),
        capacity: is_set(status, 3),
        debug: is_set(status, 4),
        nested: is_set(status, 5),
    }
}

/// Whether this bit of a word, counted from 0, is 1.
fn is_set(word: u32, bit: u32) -> bool
    requires { bit < 32 }
    ensures { result ≡ has_bit bit word }
{
    word >> bit & 1 == 1
}
