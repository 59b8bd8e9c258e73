//! The files of the system, as commands read and write them.
//!
//! Memory for as many bytes as the system says is taken before they are read; a file that turns out to be longer than
//! the most is told as too long, too. What is written goes beside the file and takes its name at the end (`replacing`),
//! but for what is no regular file, which is written where it stands. A file that may not be written is not replaced
//! either.

ghost use Rattle.std.specs.Io.KnownBytes.{Appends};
ghost use Rattle.std.specs.Prelude.{ℕ, IfOk, List, None, OnErr, OnOk};
ghost use Rattle.elide_program.specs.Files.{IsNotWritten, IsWritten};

use crate::again::Again;
use crate::paths::{Obstacle, Paths, ReadFault, Text};
use crate::replacing::replace;
use std::fs::{File, OpenFile, OpenOptions};
use std::io::{ErrorKind, Read};
use std::os::unix::fs::MetadataExt;
use std::rt::Files;
use std::{fs, io};
use text_out::{Failed, ToWriter};

/// The files of the system. Paths are UTF-8.
#[derive(Drop)]
pub struct HostPaths<'a, R> {
    rt: &'a R,
}

impl<'a, R: Files<File = File> + AllocGlobal> HostPaths<'a, R> {
    /// The files that this runtime reaches.
    pub fn new(rt: &'a R) -> HostPaths<'a, R> {
        HostPaths { rt }
    }
}

impl<R: Files<File = File> + AllocGlobal> Paths for HostPaths<'_, R> {
    // What the system's files hold no contract can say.
    ghost content = { λ _ _. None };
    // Nor which paths lead to one file.
    ghost are_one = { λ _ _ _. None };

    fn read(&mut self, path: &str, most: usize) -> Result<Vec<u8>, ReadFault> {
        let mut file = match File::open(self.rt, path) {
            Ok(file) => file,
            Err(error) => return Err(ReadFault::from(error)),
        };
        let size = size_of(&file);
        if size > most {
            return Err(ReadFault::TooLong);
        }
        let mut bytes = Vec::new(self.rt.alloc());
        if bytes.reserve_exact(size).is_err() {
            return Err(ReadFault::NoMemory);
        }
        let mut within = file.take((most as u64).saturating_add(1));
        match within.read_to_end(&mut bytes) {
            Ok(_) if bytes.len() <= most => Ok(bytes),
            Ok(_) => Err(ReadFault::TooLong),
            Err(error) => Err(ReadFault::from(error)),
        }
    }

    fn write<T: Text>(&mut self, path: &str, text: &mut T) -> Result<(), Failed> {
        match fs::symlink_metadata(self.rt, path) {
            Ok(there) if there.is_file() => {
                // A rename asks the folder alone, and would pass over the file's own permissions.
                if !can_write(self.rt, path) {
                    return Err(Failed);
                }
                replace(self.rt, path, Some(there.permissions()), text)
            }
            Ok(_) => write_in_place(self.rt, path, text),
            Err(error) if error.kind() == ErrorKind::NotFound => replace(self.rt, path, None, text),
            Err(_) => Err(Failed),
        }
    }

    fn is_same_file(&mut self, path: &str, other: &str) -> bool {
        match (fs::metadata(self.rt, path), fs::metadata(self.rt, other)) {
            (Ok(one), Ok(two)) => {
                one.is_file() && one.dev() == two.dev() && one.ino() == two.ino()
            }
            _ => false,
        }
    }
}

impl From<io::Error> for ReadFault {
    fn from(error: io::Error) -> ReadFault {
        match error.kind() {
            ErrorKind::OutOfMemory => ReadFault::NoMemory,
            ErrorKind::NotFound | ErrorKind::NotADirectory => ReadFault::Failed(Obstacle::Missing),
            ErrorKind::PermissionDenied => ReadFault::Failed(Obstacle::Denied),
            ErrorKind::IsADirectory => ReadFault::Failed(Obstacle::Folder),
            _ => ReadFault::Failed(Obstacle::Other),
        }
    }
}

// How many bytes a regular file has, as far as the system says.
fn size_of<F: OpenFile>(file: &F) -> usize {
    match file.metadata() {
        Ok(metadata) if metadata.is_file() => metadata.len() as usize,
        _ => 0,
    }
}

// Whether a file that is there may be written.
fn can_write<R: Files>(rt: &R, path: &str) -> bool {
    OpenOptions::new().write(true).open(rt, path).is_ok()
}

/// Writes a file where it stands. Where that fails, it holds a beginning of the text.
pub fn write_in_place<R: Files, T: Text>(rt: &R, path: &str, text: &mut T) -> Result<(), Failed>
    requires { T.keeps text.old }
    ensures written { OnOk result (IsWritten (T.tells text.old text.new) None) }
    ensures failed { OnErr result (IsNotWritten T.tells T.breaks text.old text.new) }
    ensures kept { T.keeps text.new }
{
    match File::create(rt, path) {
        Ok(file) => match write_all(file, text) {
            Ok(_file) => Ok(()),
            Err(_) => Err(Failed),
        },
        Err(_) => Err(Failed),
    }
}

/// Writes a text to an open file, and gives the file back. A write that a signal interrupts is made again.
pub fn write_all<F: io::Write + Drop, T: Text>(file: F, text: &mut T) -> Result<F, Failed>
    requires { T.keeps text.old }
    ensures written { IfOk result (λ given. (bytes : List ℕ) × T.tells text.old text.new bytes
        × Appends (F.contents file) (F.contents given) bytes) }
    ensures broken { OnErr result (T.breaks text.old text.new) }
    ensures kept { T.keeps text.new }
{
    match text.write_to(ToWriter::new(Again::new(file))) {
        Ok(written) => Ok(written.writer.device),
        Err(_) => Err(Failed),
    }
}
