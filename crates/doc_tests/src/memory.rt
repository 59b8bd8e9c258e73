//! Files in memory: what the commands of a row read and write in the place of a folder.

ghost use Rattle.std.specs.Prelude.{◌≤◌, IfOk, None, length};

use elide_program::{Obstacle, Paths, ReadFault, Text};
use elide_test::SharedPaths;
use std::alloc::{AllocError, Global};
use std::collections::BTreeMap;
use text_out::{Failed, ToVec};

/// What stands under a name.
#[derive(Drop)]
pub enum Content {
    /// A file with these bytes.
    Bytes(Vec<u8>),
    /// A file of so many bytes, for which there is no memory.
    Large(usize),
    /// A folder.
    Folder,
}

/// The files of a row by their names.
#[derive(Drop)]
pub struct Memory {
    alloc: Global,
    files: BTreeMap<String, Content>,
}

impl Memory {
    /// No files.
    pub fn new(alloc: Global) -> Memory {
        Memory {
            alloc,
            files: BTreeMap::new(alloc),
        }
    }

    /// Puts a file or a folder there.
    pub fn put(&mut self, name: &str, content: Content) -> Result<(), AllocError> {
        let name = name.to_owned(self.alloc)?;
        match self.files.insert(name, content) {
            Ok(_before) => Ok(()),
            Err(_) => Err(AllocError),
        }
    }
}

impl Paths for Memory {
    ghost content = { λ _ _. None };

    ghost are_one = { λ _ _ _. None };

    fn read(&mut self, path: &str, most: usize) -> Result<Vec<u8>, ReadFault> {
        self.read_shared(path, most)
    }

    fn write<T: Text>(&mut self, path: &str, text: &mut T) -> Result<(), Failed> {
        if let Some(Content::Folder) = self.files.get(path) {
            return Err(Failed);
        }
        match text.write_to(ToVec::new(Vec::new(self.alloc))) {
            Ok(content) => match self.put(path, Content::Bytes(content.bytes)) {
                Ok(()) => Ok(()),
                Err(_) => Err(Failed),
            },
            Err(_) => Err(Failed),
        }
    }

    fn is_same_file(&mut self, path: &str, other: &str) -> bool {
        path == other
    }
}

impl SharedPaths for Memory {
    ghost holds = { λ _ _. None };

    fn read_shared(&self, path: &str, most: usize) -> Result<Vec<u8>, ReadFault> {
        match self.files.get(path) {
            Some(Content::Bytes(bytes)) if bytes.len() <= most => {
                match bytes.as_slice().to_vec(self.alloc) {
                    Ok(bytes) => Ok(bytes),
                    Err(_) => Err(ReadFault::NoMemory),
                }
            }
            Some(Content::Large(size)) if *size <= most => Err(ReadFault::NoMemory),
            Some(Content::Bytes(_) | Content::Large(_)) => Err(ReadFault::TooLong),
            Some(Content::Folder) => Err(ReadFault::Failed(Obstacle::Folder)),
            None => Err(ReadFault::Failed(Obstacle::Missing)),
        }
    }

    fn is_folder(&self, path: &str) -> bool {
        matches!(self.files.get(path), Some(Content::Folder))
    }

    fn names_in(&self, folder: &str) -> Result<Vec<String>, ReadFault> {
        let mut names = Vec::new(self.alloc);
        for (path, _content) in &self.files {
            if let Some((before, name)) = path.rsplit_once('/')
                && before == folder
            {
                push_name(self.alloc, name, &mut names).map_err(|_| ReadFault::NoMemory)?;
            }
        }
        Ok(names)
    }
}

fn push_name(alloc: Global, name: &str, names: &mut Vec<String>) -> Result<(), AllocError> {
    names.push(name.to_owned(alloc)?)?;
    Ok(())
}
