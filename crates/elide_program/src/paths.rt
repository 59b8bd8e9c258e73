//! Files by their paths: what a command asks of them, whoever holds them.
//!
//! [`Paths`] is read whole and written whole, by a [`Text`] that may be made while it is written, so that no command
//! opens a file. Which fault a [`ReadFault`] is, with its number, is said by `fault`. The files of the system are
//! `host_paths`'s.

ghost use Rattle.std.specs.Io.KnownBytes.{Appends};
ghost use Rattle.std.specs.Prelude.{◌≡◌, ◌≤◌, ℕ, ⊤, Bool, IfOk, IfSome, List, MatchResult, OnErr, OnOk, Option};
ghost use Rattle.std.specs.Prelude.{length};
ghost use Rattle.elide_program.specs.Files.{Gives, IsNotWritten, IsWritten, Refuses};
ghost use Rattle.elide_program.specs.Names.{IsNameOf};

use text_out::{Failed, Out, WriteFault};
use thiserror::Error;

/// What stands in the way of opening or reading a file, as far as it is known.
#[derive(Clone, Copy, PartialEq, Eq, Debug, Error)]
pub enum Obstacle {
    /// There is no such file, or a folder of its path is none.
    #[error("No such file or directory")]
    Missing,
    /// It may not be read.
    #[error("Permission denied")]
    Denied,
    /// It is a folder.
    #[error("Is a directory")]
    Folder,
    /// Anything else.
    #[error("cannot be read")]
    Other,
}

/// Why a file is not read.
#[derive(Clone, Copy, PartialEq, Eq, Debug)]
pub enum ReadFault {
    /// It cannot be opened or read.
    Failed(Obstacle),
    /// It is longer than what is asked for.
    TooLong,
    /// There is no memory for it.
    NoMemory,
}

/// A text that writes itself, which it may make as it writes it.
pub trait Text {
    // What it can tell, from before it to behind it.
    ghost tells: { Self → Self → List ℕ → Type 0 };

    // What is true of it, however far it was written.
    ghost keeps: { Self → Type 0 } = { λ _. ⊤ };

    // How it may stand, from before it, where it was not made to its end or its device failed.
    ghost breaks: { Self → Self → Type 0 } = { λ _ _. ⊤ };

    /// Writes the text, and gives the device back. A beginning of the text, where it is not made to its end or the
    /// device fails.
    fn write_to<O: Out + Drop>(&mut self, out: O) -> Result<O, WriteFault>
        requires { keeps self.old }
        ensures written { IfOk result (λ given. (bytes : List ℕ) × tells self.old self.new bytes
            × Appends (O.device out).contents (O.device given).contents bytes) }
        ensures broken { OnErr result (breaks self.old self.new) }
        ensures kept { keeps self.new };
}

/// The files that a command reads and writes.
pub trait Paths {
    // The content of the file at a path, where it is known.
    ghost content: { Self → List ℕ → Option (List ℕ) };

    // Whether two paths lead to one regular file, where that is known.
    ghost are_one: { Self → List ℕ → List ℕ → Option Bool };

    /// The whole content of a file of at most so many bytes. A longer one is [`ReadFault::TooLong`], and no other is.
    /// No file is changed.
    fn read(&mut self, path: &str, most: usize) -> Result<Vec<u8>, ReadFault>
        ensures few { IfOk result (λ bytes. length bytes.items ≤ most) }
        ensures content { MatchResult result
            (λ bytes. Gives (content self.old path.now) most bytes.items)
            (λ fault. Refuses (content self.old path.now) most fault) }
        ensures kept { (other : List ℕ) → content self.new other ≡ content self.old other };

    /// Makes a file with this text, or replaces one that is there. Where that fails, a file that was there stays as it
    /// was. What is no regular file, such as a device, is written where it stands, and so is a file whose folder takes
    /// no new one: where that fails, a beginning of the text was written.
    fn write<T: Text>(&mut self, path: &str, text: &mut T) -> Result<(), Failed>
        requires { T.keeps text.old }
        ensures written { OnOk result (IsWritten (T.tells text.old text.new) (content self.new path.now)) }
        ensures failed { OnErr result (IsNotWritten T.tells T.breaks text.old text.new) }
        ensures kept { T.keeps text.new };

    /// Is handed the text of a program that was read, before anything is told of it, and tells its warnings where there
    /// is a device for them. Here there is none. No file is changed.
    fn warn_of(&mut self, _text: &[u8])
        ensures kept { (other : List ℕ) → content self.new other ≡ content self.old other }
    {}

    /// Whether both paths lead to one regular file. No file is changed.
    fn is_same_file(&mut self, path: &str, other: &str) -> bool
        ensures told { IfSome (are_one self.old path.now other.now) (λ one. result ≡ one) }
        ensures kept { (name : List ℕ) → content self.new name ≡ content self.old name }
        ensures steady { (one two : List ℕ) → are_one self.new one two ≡ are_one self.old one two };
}

/// The last part of a path.
pub fn name_of(path: &str) -> &str
    ensures { IsNameOf path.now result.now }
{
    match path.rsplit_once('/') {
        Some((_folder, name)) => name,
        None => path,
    }
}
