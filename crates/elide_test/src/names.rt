//! The files that are named: [`names_of`], by the command line first, and then by `--list`.
//!
//! A folder stands for what is directly in it, sorted; folders in it are left out. A path that is no folder's is taken
//! as it is, also twice: whether it can be read shows when it is tried. A list or a folder that cannot be read ends it
//! all.

use crate::folder::joined;
use crate::reading::read;
use crate::shared::SharedPaths;
use crate::stop::Stop;
use elide_args::TestOptions;
use elide_program::{Obstacle, ReadFault, add};
use std::alloc::{AllocError, Global};
use std::str;

/// The paths of the files with tests: those of the command line and then those of `--list`. A folder stands for those
/// in it whose names end in `.asm` or `.elide`, in the order of their names.
pub fn names_of<S: SharedPaths>(
    alloc: Global,
    options: &TestOptions<'_>,
    paths: &S,
) -> Result<Vec<String>, Stop> {
    let mut names = Vec::new(alloc);
    for path in options.files.as_slice() {
        push_path(alloc, path, paths, &mut names)?;
    }
    if let Some(list) = options.list {
        push_listed(alloc, list, paths, &mut names)?;
    }
    Ok(names)
}

// Adds the paths of a list, one a line.
fn push_listed<S: SharedPaths>(
    alloc: Global,
    list: &str,
    paths: &S,
    names: &mut Vec<String>,
) -> Result<(), Stop> {
    let text = read(list, paths)?;
    let Ok(text) = str::from_utf8(text.as_slice()) else {
        return Err(Stop::Unread(ReadFault::Failed(Obstacle::Other)));
    };
    for line in text.lines() {
        if !line.is_empty() {
            push_path(alloc, line, paths, names)?;
        }
    }
    Ok(())
}

// Adds a path, or those of the files with tests in a folder.
fn push_path<S: SharedPaths>(
    alloc: Global,
    path: &str,
    paths: &S,
    names: &mut Vec<String>,
) -> Result<(), Stop> {
    if paths.is_folder(path) {
        return push_folder(alloc, path.trim_end_matches('/'), paths, names);
    }
    add(names, String::from_str(alloc, path)?)?;
    Ok(())
}

// Adds the paths of the files with tests in a folder.
fn push_folder<S: SharedPaths>(
    alloc: Global,
    folder: &str,
    paths: &S,
    names: &mut Vec<String>,
) -> Result<(), Stop> {
    let mut within = paths.names_in(folder)?;
    within.sort()?;
    for name in within.as_slice() {
        let name = name.as_str();
        if name.ends_with(".asm") || name.ends_with(".elide") {
            push_file(joined(alloc, folder, name)?, paths, names)?;
        }
    }
    Ok(())
}

// Adds a path that is no folder's.
fn push_file<S: SharedPaths>(
    path: String,
    paths: &S,
    names: &mut Vec<String>,
) -> Result<(), AllocError> {
    if !paths.is_folder(path.as_str()) {
        add(names, path)?;
    }
    Ok(())
}
