//! Devices that take bytes, each of which counts its failures.

ghost use Rattle.std.specs.Prelude.{◌≡◌, ◌≤◌, Some, length, take};
ghost use Rattle.std.specs.Io.KnownBytes.{Appends};
ghost use Rattle.text_out.specs.Writing.{Device, Writes};

use std::io::Write;
use thiserror::Error;

/// A device did not do what it was asked.
#[derive(Clone, Copy, PartialEq, Eq, Debug, Error)]
#[error("a device failed")]
pub struct Failed;

/// A device's failure, as the fault of a call that prints.
#[derive(Clone, Copy, PartialEq, Eq, Debug, Error)]
pub enum WriteFault {
    /// The count of failures rose during the call, and a beginning of its text was written.
    #[error("Write")]
    Write,
}

impl WriteFault {
    /// The fault's number.
    pub fn code(self) -> u8
        ensures { result ≡ 5 }
    {
        match self {
            WriteFault::Write => 5,
        }
    }
}

impl From<Failed> for WriteFault {
    fn from(_failed: Failed) -> WriteFault {
        WriteFault::Write
    }
}

/// A device that takes bytes.
pub trait Out {
    // The bytes that it holds, where they are known, and how often it failed.
    ghost device: { Self → Device };

    /// Writes all the bytes, or a beginning of them and counts a failure.
    fn put(&mut self, bytes: &[u8]) -> Result<(), Failed>
        ensures { Writes (device self.old) (device self.new) bytes.now result };

    /// How many writes failed so far. The count stays at `u64::MAX` once there, and there counts as risen.
    fn failures(&self) -> u64
        ensures { result ≡ (device self.now).failures };
}

/// A list of bytes in memory. A growth that is refused is a failure, and leaves the list as it was.
#[derive(Debug, Drop)]
pub struct ToVec {
    pub bytes: Vec<u8>,
    pub failures: u64,
}

impl ToVec {
    /// Writes behind these bytes, with no failure so far.
    pub fn new(bytes: Vec<u8>) -> ToVec
        ensures { result ≡ record { bytes = bytes; failures = 0 } }
    {
        ToVec { bytes, failures: 0 }
    }
}

impl Out for ToVec {
    ghost device = { λ o. record { contents = Some o.bytes.items; failures = o.failures } };

    fn put(&mut self, bytes: &[u8]) -> Result<(), Failed> {
        if self.bytes.extend_from_slice(bytes).is_err() {
            self.failures = self.failures.saturating_add(1);
            return Err(Failed);
        }
        Ok(())
    }

    fn failures(&self) -> u64 {
        self.failures
    }
}

/// A writer of `std::io`. Any error and a write of 0 bytes are failures, and after a short write the rest is written.
#[derive(Drop)]
pub struct ToWriter<W> {
    pub writer: W,
    pub failures: u64,
}

impl<W> ToWriter<W> {
    /// Writes to this writer, with no failure so far.
    pub fn new(writer: W) -> ToWriter<W>
        ensures { result ≡ record { writer = writer; failures = 0 } }
    {
        ToWriter {
            writer,
            failures: 0,
        }
    }
}

impl<W: Write> Out for ToWriter<W> {
    ghost device = { λ o. record { contents = W.contents o.writer; failures = o.failures } };

    fn put(&mut self, bytes: &[u8]) -> Result<(), Failed> {
        let mut at = 0;
        'pieces: while at < bytes.len() {
            let count = write_some(&mut self.writer, &bytes[at..]);
            if count == 0 {
                self.failures = self.failures.saturating_add(1);
                return Err(Failed);
            }
            at += count;
        }
        Ok(())
    }

    fn failures(&self) -> u64 {
        self.failures
    }
}

// Writes some of the bytes, and says how many.
#[tactic(auto, using(crate::proofs::Writing::appends_same))]
fn write_some<W: Write>(writer: &mut W, bytes: &[u8]) -> usize
    ensures within { result ≤ length bytes.now }
    ensures written { Appends (W.contents writer.old) (W.contents writer.new) (take result bytes.now) }
{
    match writer.write(bytes) {
        Ok(count) => count,
        Err(_) => 0,
    }
}
