//! A file that is replaced as a whole: written beside its path, and renamed when all of it is there.
//!
//! [`replace`] first gets a name beside the path that no other command writes, by a lock, then writes, then sets the
//! permissions, and last renames. Where anything fails the file beside is removed, and what stood at the path stays. In
//! a folder that takes no new file it is written in place, where that cannot be promised. Whether the path may be
//! written was asked before, by `host_paths`.

ghost use Rattle.std.specs.Prelude.{None, OnErr, OnOk};
ghost use Rattle.elide_program.specs.Files.{IsNotWritten, IsWritten};

use crate::host_paths::{write_all, write_in_place};
use crate::paths::Text;
use arrayvec::ArrayString;
use std::fmt::Write;
use std::fs::{File, OpenOptions, Permissions, TryLockError};
use std::io::ErrorKind;
use std::os::unix::fs::MetadataExt;
use std::rt::Files;
use std::{fs, io};
use text_out::Failed;

// A path that stands beside another one.
type Beside = ArrayString<4096>;

// How many names are tried for a file beside another one.
const NAMES: u32 = 100;

// How many bytes of a file's name that of the file beside it begins with at most: names have up to 255 bytes on most
// systems.
const FRONT: usize = 200;

/// Writes a text to a file beside a path, and gives it that name when it is whole, so that what stood there before
/// stays where a write fails. The file is new, or one that a command which was ended left behind; it is locked
/// (`flock`) until it has its name, so that no two commands write the same one. In a folder that takes no new file, the
/// file is written where it stands.
pub fn replace<R: Files<File = File>, T: Text>(
    rt: &R,
    path: &str,
    permissions: Option<Permissions>,
    text: &mut T,
) -> Result<(), Failed>
    requires { T.keeps text.old }
    ensures written { OnOk result (IsWritten (T.tells text.old text.new) None) }
    ensures failed { OnErr result (IsNotWritten T.tells T.breaks text.old text.new) }
    ensures kept { T.keeps text.new }
{
    match held_beside(rt, path) {
        Ok(Some(part)) => write_part(rt, &part, path, permissions, text),
        Ok(None) => write_in_place(rt, path, text),
        Err(_) => Err(Failed),
    }
}

// A file that is held until it is whole.
#[derive(Drop)]
struct Part {
    file: File,
    // Where it stands until then.
    beside: Beside,
}

// Writes a text to it, and gives it this path; removes it where it is not whole.
fn write_part<R: Files, T: Text>(
    rt: &R,
    part: &Part,
    path: &str,
    permissions: Option<Permissions>,
    text: &mut T,
) -> Result<(), Failed>
    requires { T.keeps text.old }
    ensures written { OnOk result (IsWritten (T.tells text.old text.new) None) }
    ensures failed { OnErr result (IsNotWritten T.tells T.breaks text.old text.new) }
    ensures kept { T.keeps text.new }
{
    match write_all(&part.file, text) {
        Ok(_file) => {
            if take_name(rt, part, path, permissions) {
                return Ok(());
            }
            remove(rt, part);
            Err(Failed)
        }
        Err(_) => {
            remove(rt, part);
            Err(Failed)
        }
    }
}

// A file beside a path. None, where its folder takes none.
fn held_beside<R: Files<File = File>>(rt: &R, path: &str) -> Result<Option<Part>, Failed> {
    for number in 0..NAMES {
        let Some(beside) = name_beside(path, number) else {
            return Ok(None);
        };
        match hold(rt, beside.as_str()) {
            Ok(Some(file)) => return Ok(Some(Part { file, beside })),
            Ok(None) => {}
            Err(error) => match error.kind() {
                ErrorKind::PermissionDenied | ErrorKind::InvalidFilename => return Ok(None),
                _ => return Err(Failed),
            },
        }
    }
    Err(Failed)
}

// The path, or a beginning of it where the name in it is long, with `.elide-part` and a number behind, where that is no
// longer than a path can be.
fn name_beside(path: &str, number: u32) -> Option<Beside> {
    let front = front_of(path);
    let mut beside = Beside::new();
    match write!(beside, "{front}.elide-part{number}") {
        Ok(()) => Some(beside),
        Err(_) => None,
    }
}

// A path up to the first bytes of the name in it.
fn front_of(path: &str) -> &str {
    let folder = path.rfind('/').unwrap_or(0);
    let end = path.floor_char_boundary(folder.saturating_add(FRONT));
    &path[..end]
}

// An empty file of this name that no other command writes: a new one, or one that was left behind. None where another
// command has it, or it is no such file.
fn hold<R: Files<File = File>>(rt: &R, beside: &str) -> io::Result<Option<File>> {
    match File::create_new(rt, beside) {
        Ok(file) => match file.try_lock() {
            Ok(()) if is_at(rt, &file, beside) => Ok(Some(file)),
            // Where files have no locks, none is taken over either.
            Err(TryLockError::Error(_)) => Ok(Some(file)),
            Ok(()) | Err(TryLockError::WouldBlock) => Ok(None),
        },
        Err(error) if error.kind() == ErrorKind::AlreadyExists => Ok(left_behind(rt, beside)),
        Err(error) => Err(error),
    }
}

// A file that a command left behind, emptied.
fn left_behind<R: Files<File = File>>(rt: &R, beside: &str) -> Option<File> {
    // A pipe would wait here for a reader.
    if !fs::symlink_metadata(rt, beside).ok()?.is_file() {
        return None;
    }
    let file = OpenOptions::new().write(true).open(rt, beside).ok()?;
    if file.try_lock().is_err() || !is_at(rt, &file, beside) {
        return None;
    }
    file.set_len(0).ok()?;
    Some(file)
}

// Whether the open file stands at this path, and nowhere else: who had it before may have renamed it while the lock was
// awaited.
fn is_at<R: Files>(rt: &R, file: &File, path: &str) -> bool {
    match (file.metadata(), fs::symlink_metadata(rt, path)) {
        (Ok(open), Ok(there)) => {
            open.dev() == there.dev() && open.ino() == there.ino() && there.nlink() == 1
        }
        _ => false,
    }
}

// Gives a file that was written whole its name. Whether the system let it.
fn take_name<R: Files>(rt: &R, part: &Part, path: &str, permissions: Option<Permissions>) -> bool {
    if let Some(permissions) = permissions {
        let _ = part.file.set_permissions(permissions);
    }
    fs::rename(rt, part.beside.as_str(), path).is_ok()
}

fn remove<R: Files>(rt: &R, part: &Part) {
    let _ = fs::remove_file(rt, part.beside.as_str());
}
