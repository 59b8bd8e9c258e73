//! Files as they are seen from the folder of a file with tests, wherever `elide` was started.
//!
//! [`folder_of`] parts a path at its last slash. [`FolderPaths`] puts the folder before each relative path, and then
//! reads; it writes nothing and fails, so that a test leaves no file behind. Want of memory for a path is that for the
//! file.

ghost use Rattle.std.specs.Prelude.{◌≡◌, ◌≤◌, ◌++◌, IfOk, IfSome, None, length, string_bytes};
ghost use Rattle.std.specs.Option.{option_copied};
ghost use Rattle.elide_test.specs.Folder.{IsIn, in_folder, is_rooted, seen};

use crate::shared::SharedPaths;
use elide_program::{Paths, ReadFault, Text};
use std::alloc::{AllocError, Global};
use text_out::Failed;

/// The folder of a path, if it names one, and the file's name in it.
pub fn folder_of(path: &str) -> (Option<&str>, &str)
    ensures { IsIn (option_copied result.0) result.1.now path.now }
{
    match parted(path, "/") {
        Some((folder, name)) => (Some(folder), name),
        None => (None, path),
    }
}

// What stands before the last place of a word in a text, and behind it.
fn parted<'a>(text: &'a str, word: &str) -> Option<(&'a str, &'a str)>
    ensures { IfSome result (λ parts. text.now ≡ parts.0.now ++ (word.now ++ parts.1.now)) }
{
    text.rsplit_once(word)
}

/// A path that is seen from a folder, if it is relative.
pub fn seen_from(alloc: Global, folder: Option<&str>, path: &str) -> Result<String, AllocError>
    ensures { IfOk result (λ joined. string_bytes joined ≡ seen (option_copied folder.entry) path.now) }
{
    match folder {
        Some(folder) if !is_rooted(path) => joined(alloc, folder, path),
        _ => String::from_str(alloc, path),
    }
}

// Whether a path begins at the root.
fn is_rooted(path: &str) -> bool
    ensures { result ≡ is_rooted path.now }
{
    path.as_bytes().starts_with(b"/")
}

/// A path in a folder.
pub fn joined(alloc: Global, folder: &str, path: &str) -> Result<String, AllocError>
    ensures { IfOk result (λ joined. string_bytes joined ≡ in_folder folder.now path.now) }
{
    let mut joined = String::from_str(alloc, folder)?;
    joined.push_str("/")?;
    joined.push_str(path)?;
    Ok(joined)
}

/// The files of a command that stands in a folder. None is written.
#[derive(Clone, Copy)]
pub struct FolderPaths<'a, S> {
    /// Where memory for a path is taken.
    pub alloc: Global,
    /// The files.
    pub paths: &'a S,
    /// The folder, if it is another one than that of the program.
    pub folder: Option<&'a str>,
}

impl<S: SharedPaths> Paths for FolderPaths<'_, S> {
    ghost content = { λ p path. S.holds p.paths.now (seen (option_copied p.folder) path) };
    // None is written, so that it does not matter.
    ghost are_one = { λ _ _ _. None };

    fn read(&mut self, path: &str, most: usize) -> Result<Vec<u8>, ReadFault> {
        match seen_from(self.alloc, self.folder, path) {
            Ok(path) => self.paths.read_shared(path.as_str(), most),
            Err(_) => Err(ReadFault::NoMemory),
        }
    }

    fn write<T: Text>(&mut self, _path: &str, _text: &mut T) -> Result<(), Failed> {
        Err(Failed)
    }

    fn is_same_file(&mut self, _path: &str, _other: &str) -> bool {
        false
    }
}
