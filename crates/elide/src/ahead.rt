//! A reader that reads ahead, for the input of sessions, which is asked for byte by byte.
//!
//! [`ReadAhead`] asks its reader only where nothing is left, and once: a line that is there is answered before the next
//! is awaited. At an end it asks again at the next call. What a signal interrupts is read again below it.

ghost use Rattle.std.specs.Prelude.{◌≤◌};

use std::io;
use std::io::Read;

// How many bytes are read ahead.
const ROOM: usize = 4096;

/// A reader with a row of fixed room in front of it, so that a byte costs neither a system call nor memory. What the
/// reader has is handed on before more of it is awaited.
#[derive(Drop)]
pub struct ReadAhead<R> {
    reader: R,
    row: [u8; ROOM],
    start: usize,
    end: usize,
    ghost ordered: { start ≤ end },
    ghost within: { end ≤ 4096 },
}

impl<R: Read> ReadAhead<R> {
    /// Reads from this reader, of which nothing is read yet.
    pub fn new(reader: R) -> ReadAhead<R> {
        ReadAhead {
            reader,
            row: [0; ROOM],
            start: 0,
            end: 0,
        }
    }

    // Reads on where nothing is left.
    fn fill(&mut self) -> io::Result<()> {
        if self.start < self.end {
            return Ok(());
        }
        self.start = 0;
        self.end = 0;
        self.end = self.reader.read(&mut self.row)?;
        Ok(())
    }
}

impl<R: Read> Read for ReadAhead<R> {
    fn read(&mut self, buf: &mut [u8]) -> io::Result<usize> {
        self.fill()?;
        let count = buf.len().min(self.end - self.start);
        let end = self.start + count;
        buf[..count].copy_from_slice(&self.row[self.start..end]);
        self.start = end;
        Ok(count)
    }
}
