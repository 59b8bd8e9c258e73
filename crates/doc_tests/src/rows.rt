//! The worked rows, run over files in memory.

use crate::memory::{Content, Memory};
use crate::reply::{Reply, reply_to};
use crate::table::{PartHead, TablePart};
use crate::wanted::{Room, is_wanted, room_of};
use crate::words::line_of;
use elide_program::Paths;
use std::alloc::{AllocError, Global};
use std::io;
use std::io::Write;
use std::sync::Wait;
use std::thread::Threads;

/// Where a run of the table stands.
#[derive(Drop)]
pub struct Course<'a> {
    /// How many rows were begun.
    pub rows: usize,
    /// How many commands were run.
    pub commands: usize,
    /// How many of them came to something else.
    pub wrong: usize,
    title: &'a str,
    memory: Memory,
    before: String,
}

impl<'a> Course<'a> {
    /// Before the first row.
    pub fn new(alloc: Global) -> Course<'a> {
        Course {
            rows: 0,
            commands: 0,
            wrong: 0,
            title: "",
            memory: Memory::new(alloc),
            before: String::new(alloc),
        }
    }

    /// Takes a part of the table, and tells a command that comes to something else than it says.
    pub fn take<R: Threads + Wait + Sync + AllocGlobal, W: Write>(
        &mut self,
        rt: &R,
        part: &TablePart<'a>,
        out: &mut W,
    ) -> io::Result<()> {
        match part.head {
            PartHead::Row(title) => self.begin(rt.alloc(), title),
            PartHead::Text(name) => {
                let text = text_of(rt.alloc(), &part.lines)?;
                self.memory.put(name, Content::Bytes(text))?;
            }
            PartHead::Bytes(name) => {
                let bytes = bytes_of(rt.alloc(), &part.lines)?;
                self.memory.put(name, Content::Bytes(bytes))?;
            }
            PartHead::Large(name) => {
                let size = size_of(part.lines.as_slice());
                self.memory.put(name, Content::Large(size))?;
            }
            PartHead::Folder(name) => self.memory.put(name, Content::Folder)?,
            PartHead::Command(command) => self.run(rt, command, part.lines.as_slice(), out)?,
        }
        Ok(())
    }

    fn begin(&mut self, alloc: Global, title: &'a str) {
        self.rows = self.rows.saturating_add(1);
        self.title = title;
        self.memory = Memory::new(alloc);
        self.before.clear();
    }

    fn run<R: Threads + Wait + Sync + AllocGlobal, W: Write>(
        &mut self,
        rt: &R,
        command: &str,
        lines: &[&str],
        out: &mut W,
    ) -> io::Result<()> {
        self.commands = self.commands.saturating_add(1);
        let reply = said(rt, command, &mut self.memory, room_of(lines))?;
        if !is_wanted(lines, reply.text(), self.before.as_str()) {
            self.wrong = self.wrong.saturating_add(1);
            writeln!(out, "{}: {command} comes to {}", self.title, reply.status)?;
            writeln!(out, "{}{}", reply.out, reply.err)?;
        }
        self.before = reply.out;
        Ok(())
    }
}

// What a command comes to over files in memory: `elide` with its words, or `cat`, which prints a file.
fn said<R: Threads + Wait + Sync + AllocGlobal>(
    rt: &R,
    command: &str,
    memory: &mut Memory,
    room: Room,
) -> Result<Reply, AllocError> {
    let alloc = rt.alloc();
    let line = line_of(alloc, command)?;
    let given = match &line.input {
        Some(name) => memory
            .read(name.as_str(), usize::MAX)
            .map_err(|_| AllocError)?,
        None => Vec::new(alloc),
    };
    match line.words.as_slice() {
        [first, name] if first.as_str() == "cat" => printed(alloc, name.as_str(), memory),
        [_elide, words @ ..] => reply_to(rt, words, memory, given.as_slice(), room),
        [] => reply_to(rt, &[], memory, given.as_slice(), room),
    }
}

// The text of a file in memory.
fn printed(alloc: Global, name: &str, memory: &mut Memory) -> Result<Reply, AllocError> {
    let text = memory.read(name, usize::MAX).map_err(|_| AllocError)?;
    Ok(Reply {
        status: 0,
        out: String::from_utf8_lossy(alloc, text.as_slice())?,
        err: String::new(alloc),
    })
}

// The count of bytes that the first line says.
fn size_of(lines: &[&str]) -> usize {
    match lines.first() {
        Some(line) => line.parse::<usize>().unwrap_or(0),
        None => 0,
    }
}

// The lines of a file, each ended by LF.
fn text_of(alloc: Global, lines: &Vec<&str>) -> Result<Vec<u8>, AllocError> {
    let mut text = Vec::new(alloc);
    for line in lines {
        text.extend_from_slice(line.as_bytes())?;
        text.push(b'\n')?;
    }
    Ok(text)
}

// The bytes that words of two hex digits say.
fn bytes_of(alloc: Global, lines: &Vec<&str>) -> Result<Vec<u8>, AllocError> {
    let mut bytes = Vec::new(alloc);
    for line in lines {
        for word in line.split_whitespace() {
            bytes.push(u8::from_str_radix(word, 16).unwrap_or(0))?;
        }
    }
    Ok(bytes)
}
