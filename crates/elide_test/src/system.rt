//! The files of the system, for one thread and for several.
//!
//! [`SystemPaths`] keeps nothing between two calls, so that threads share it: each call goes to `HostPaths` of its own.
//! Nothing is promised of what files hold, which others can change meanwhile. In a folder, names that are no UTF-8 are
//! left out, and any other failure refuses all of it.

ghost use Rattle.std.specs.Prelude.{◌≤◌, IfOk, None, length};

use crate::shared::SharedPaths;
use elide_program::{HostPaths, Paths, ReadFault, Text};
use std::alloc::Global;
use std::fs;
use std::fs::File;
use std::io::ErrorKind;
use std::rt::Files;
use text_out::Failed;

/// The files of the system. Paths are UTF-8.
#[derive(Drop)]
pub struct SystemPaths<'a, R> {
    rt: &'a R,
}

impl<'a, R: Files<File = File> + AllocGlobal> SystemPaths<'a, R> {
    /// The files that this runtime reaches.
    pub fn new(rt: &'a R) -> SystemPaths<'a, R> {
        SystemPaths { rt }
    }
}

impl<R: Files<File = File> + AllocGlobal> Paths for SystemPaths<'_, R> {
    // What the system's files hold no contract can say.
    ghost content = { λ _ _. None };

    ghost are_one = { λ _ _ _. None };

    fn read(&mut self, path: &str, most: usize) -> Result<Vec<u8>, ReadFault> {
        HostPaths::new(self.rt).read(path, most)
    }

    fn write<T: Text>(&mut self, path: &str, text: &mut T) -> Result<(), Failed> {
        HostPaths::new(self.rt).write(path, text)
    }

    fn is_same_file(&mut self, path: &str, other: &str) -> bool {
        HostPaths::new(self.rt).is_same_file(path, other)
    }
}

impl<R: Files<File = File> + AllocGlobal + Clone + Drop> SharedPaths for SystemPaths<'_, R> {
    ghost holds = { λ _ _. None };

    fn read_shared(&self, path: &str, most: usize) -> Result<Vec<u8>, ReadFault> {
        HostPaths::new(self.rt).read(path, most)
    }

    fn is_folder(&self, path: &str) -> bool {
        match fs::metadata(self.rt, path) {
            Ok(metadata) => metadata.is_dir(),
            Err(_) => false,
        }
    }

    fn names_in(&self, folder: &str) -> Result<Vec<String>, ReadFault> {
        let alloc = self.rt.alloc();
        let mut names = Vec::new(alloc);
        for entry in fs::read_dir(self.rt, folder)? {
            match entry {
                Ok(entry) => push_name(alloc, entry.file_name(), &mut names)?,
                Err(error) if error.kind() == ErrorKind::InvalidFilename => {}
                Err(error) => return Err(ReadFault::from(error)),
            }
        }
        Ok(names)
    }
}

// Adds a name.
fn push_name(alloc: Global, name: &str, names: &mut Vec<String>) -> Result<(), ReadFault> {
    let Ok(name) = String::from_str(alloc, name) else {
        return Err(ReadFault::NoMemory);
    };
    match names.push(name) {
        Ok(()) => Ok(()),
        Err(_) => Err(ReadFault::NoMemory),
    }
}
