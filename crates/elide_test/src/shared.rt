//! Files that several threads read: by a shared reference, and never written.
//!
//! [`SharedPaths`] reads the files with tests, and those that their commands ask for, which see them by a `FolderPaths`
//! of their own. The files of the system are in `system`.

ghost use Rattle.std.specs.Prelude.{◌≤◌, ℕ, IfOk, List, MatchResult, Option, length};
ghost use Rattle.elide_program.specs.Files.{Gives, Refuses};

use elide_program::ReadFault;

/// Files that several threads read. None is changed.
pub trait SharedPaths {
    // The content of the file at a path, where it is known.
    ghost holds: { Self → List ℕ → Option (List ℕ) };

    /// The whole content of a file of at most so many bytes. A longer one is [`ReadFault::TooLong`], and no other is.
    fn read_shared(&self, path: &str, most: usize) -> Result<Vec<u8>, ReadFault>
        ensures few { IfOk result (λ bytes. length bytes.items ≤ most) }
        ensures content { MatchResult result
            (λ bytes. Gives (holds self.now path.now) most bytes.items)
            (λ fault. Refuses (holds self.now path.now) most fault) };

    /// Whether a path leads to a folder.
    fn is_folder(&self, path: &str) -> bool;

    /// The names of what stands in a folder, in any order. Names that are no UTF-8 are left out.
    fn names_in(&self, folder: &str) -> Result<Vec<String>, ReadFault>;
}
