//! Devices that give bytes, each of which counts its failures.
//!
//! [`In::get`] gives what is there, perhaps fewer bytes than there is room for, and none at the end. By the count a
//! contract tells an input that failed from one that ended. Lines are made of the bytes in `line`; devices that
//! take bytes are `ia_text`'s.

ghost use Rattle.std.specs.Prelude.{◌≡◌, ℕ, ◌+◌, ◌<◌, ◌≤◌, List, Option, None, Ok, length};
ghost use Rattle.tm_debug.specs.Reading.{Reads};

use std::io::Read;
use text_out::Failed;

/// A device that gives bytes.
pub trait In {
    // The bytes that it has left, where they are known.
    ghost remaining: { Self → Option (List ℕ) } = { λ _. None };

    // How often it failed.
    ghost failed: { Self → ℕ };

    /// Reads some bytes to the front of a slice that is not empty, and none at the end.
    fn get(&mut self, buf: &mut [u8]) -> Result<usize, Failed>
        requires { 0 < length buf.old }
        ensures { Reads (remaining self.old) (failed self.old) (remaining self.new) (failed self.new) buf.new result };

    /// How many reads failed so far. The count stays at its greatest number.
    fn failures(&self) -> u64
        ensures { result ≡ failed self.now };
}

/// A reader. Any error is a failure.
#[derive(Drop)]
pub struct FromReader<R> {
    /// The reader.
    pub reader: R,
    /// How many reads failed so far.
    pub failures: u64,
}

impl<R> FromReader<R> {
    /// Reads from this reader, with no failure so far.
    pub fn new(reader: R) -> FromReader<R>
        ensures { result ≡ record { reader = reader; failures = 0 } }
    {
        FromReader {
            reader,
            failures: 0,
        }
    }
}

impl<R: Read> In for FromReader<R> {
    ghost remaining = { λ i. R.remaining i.reader };

    ghost failed = { λ i. i.failures };

    fn get(&mut self, buf: &mut [u8]) -> Result<usize, Failed> {
        match self.reader.read(buf) {
            Ok(count) => Ok(count),
            Err(_) => {
                self.failures = self.failures.saturating_add(1);
                Err(Failed)
            }
        }
    }

    fn failures(&self) -> u64 {
        self.failures
    }
}
