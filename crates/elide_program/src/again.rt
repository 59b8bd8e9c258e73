//! Devices of `std::io` that a signal does not stop.
//!
//! [`Again`] is put around a file or a stream where it is opened, so that nothing above knows of signals. A read or a
//! write that was interrupted has moved no byte, and is made again; any other failure is handed on. A flush is not made
//! again.

ghost use Rattle.std.specs.Io.KnownBytes.{ReadConsumes, WriteAppends};
ghost use Rattle.std.specs.Io.{ReadsAtMost, WritesAtMost};
ghost use Rattle.std.specs.IoError.{error_kind};
ghost use Rattle.std.specs.Prelude.{◌≡◌, ◌≢◌, IfErr};

use std::io;
use std::io::{Error, ErrorKind, Read, Write};

/// A device whose reads and writes are made again where a signal interrupts them before a byte has moved (`EINTR`,
/// POSIX.1-2017, volume 2, 2.3).
#[derive(Drop)]
pub struct Again<D> {
    pub device: D,
}

impl<D> Again<D> {
    /// Reads from this device, and writes to it.
    pub fn new(device: D) -> Again<D>
        ensures { result ≡ record { device = device } }
    {
        Again { device }
    }
}

impl<D: Read> Read for Again<D> {
    ghost remaining = { λ again. D.remaining again.device };

    fn read(&mut self, buf: &mut [u8]) -> io::Result<usize> {
        read_again(&mut self.device, buf)
    }
}

impl<D: Write> Write for Again<D> {
    ghost contents = { λ again. D.contents again.device };

    fn write(&mut self, buf: &[u8]) -> io::Result<usize> {
        write_again(&mut self.device, buf)
    }

    fn flush(&mut self) -> io::Result<()> {
        self.device.flush()
    }
}

/// One read, made again where it is interrupted. `TimedOut` after 2^64 - 1 tries.
pub fn read_again<D: Read>(device: &mut D, buf: &mut [u8]) -> io::Result<usize>
    ensures bound { ReadsAtMost result buf.new }
    ensures bytes { ReadConsumes (D.remaining device.old) (D.remaining device.new) result buf.new }
    ensures again { IfErr result (λ error. error_kind error ≢ ErrorKind.Interrupted) }
{
    'tries: for _ in 0..u64::MAX {
        match device.read(buf) {
            Ok(count) => return Ok(count),
            Err(error) if error.kind() == ErrorKind::Interrupted => {}
            Err(error) => return Err(error),
        }
    }
    Err(Error::from(ErrorKind::TimedOut))
}

/// One write, made again where it is interrupted. `TimedOut` after 2^64 - 1 tries.
pub fn write_again<D: Write>(device: &mut D, buf: &[u8]) -> io::Result<usize>
    ensures bound { WritesAtMost result buf.now }
    ensures bytes { WriteAppends (D.contents device.old) (D.contents device.new) result buf.now }
    ensures again { IfErr result (λ error. error_kind error ≢ ErrorKind.Interrupted) }
{
    'tries: for _ in 0..u64::MAX {
        match device.write(buf) {
            Ok(count) => return Ok(count),
            Err(error) if error.kind() == ErrorKind::Interrupted => {}
            Err(error) => return Err(error),
        }
    }
    Err(Error::from(ErrorKind::TimedOut))
}
