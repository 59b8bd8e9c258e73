//! What a command line of `elide` comes to.

use crate::wanted::{Devices, ReplyText, Room};
use elide_command::Streams;
use elide_device::{Silent, Surroundings, Terminals};
use elide_program::Paths;
use elide_test::SharedPaths;
use elide_trial::command;
use std::alloc::{AllocError, Global};
use std::io;
use std::io::{Read, Write};
use std::sync::Wait;
use std::thread::Threads;
use text_out::ToWriter;
use tm_debug::FromReader;

/// The exit status, and what was written.
#[derive(Debug, Drop)]
pub struct Reply {
    /// The exit status.
    pub status: u8,
    /// What stands on standard output.
    pub out: String,
    /// What stands on standard error.
    pub err: String,
}

impl Reply {
    /// The same, to be compared.
    pub fn text(&self) -> ReplyText<'_> {
        ReplyText {
            status: self.status,
            out: self.out.as_str(),
            err: self.err.as_str(),
        }
    }
}

/// An input that gives all that it has, and outputs that take all that is written.
pub const ALL: Room = Room {
    input: usize::MAX,
    out: usize::MAX,
    err: usize::MAX,
    devices: Devices::Files,
};

/// Runs a command over these files and this input; its input gives and its outputs take so many bytes and then fail.
pub fn reply_to<R: Threads + Wait + Sync + AllocGlobal, P: Paths + SharedPaths + Sync>(
    rt: &R,
    words: &[String],
    paths: &mut P,
    given: &[u8],
    room: Room,
) -> Result<Reply, AllocError> {
    let alloc = rt.alloc();
    let words: Vec<&str> = words.iter().map(|word| word.as_str()).collect(alloc)?;
    let mut input = FromReader::new(Tape {
        bytes: given,
        room: room.input,
    });
    let mut out = ToWriter::new(Sheet::new(alloc, room.out));
    let mut err = ToWriter::new(Sheet::new(alloc, room.err));
    let mut progress = Silent;
    let mut streams = Streams::new(paths, &mut input, &mut out, &mut err, &mut progress);
    let surroundings = surroundings_of(room.devices);
    let status = command(rt, words.as_slice(), &mut streams, surroundings);
    Ok(Reply {
        status,
        out: out.writer.text(alloc)?,
        err: err.writer.text(alloc)?,
    })
}

// What stands around a command with such devices.
fn surroundings_of(devices: Devices) -> Surroundings {
    match devices {
        Devices::Files => Surroundings::NONE,
        Devices::PlainTerminal => Surroundings {
            terminals: Terminals::ALL,
            is_plain: true,
            tells_words: false,
        },
        Devices::Terminal => Surroundings {
            terminals: Terminals::ALL,
            is_plain: false,
            tells_words: false,
        },
    }
}

// An input in memory that gives so many bytes.
#[derive(Clone, Copy, Debug)]
struct Tape<'a> {
    bytes: &'a [u8],
    room: usize,
}

impl Read for Tape<'_> {
    fn read(&mut self, buf: &mut [u8]) -> io::Result<usize> {
        if self.room == 0 {
            return Err(io::Error::from(io::ErrorKind::Other));
        }
        let count = buf.len().min(self.room).min(self.bytes.len());
        buf[..count].copy_from_slice(&self.bytes[..count]);
        self.bytes = &self.bytes[count..];
        self.room -= count;
        Ok(count)
    }
}

// A device in memory with room for so many bytes.
#[derive(Drop)]
struct Sheet {
    bytes: Vec<u8>,
    room: usize,
}

impl Sheet {
    fn new(alloc: Global, room: usize) -> Sheet {
        Sheet {
            bytes: Vec::new(alloc),
            room,
        }
    }

    fn text(&self, alloc: Global) -> Result<String, AllocError> {
        String::from_utf8_lossy(alloc, self.bytes.as_slice())
    }
}

impl Write for Sheet {
    fn write(&mut self, buf: &[u8]) -> io::Result<usize> {
        let count = buf.len().min(self.room);
        self.bytes.extend_from_slice(&buf[..count])?;
        self.room -= count;
        Ok(count)
    }

    fn flush(&mut self) -> io::Result<()> {
        Ok(())
    }
}
