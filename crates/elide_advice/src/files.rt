//! Files that are not read or written, as faults do not say which of them.
//!
//! [`advise_input`] opens FILE and then the schedule's file again, and names the first that still cannot be read; where
//! both can be by now, it writes nothing. [`advise_output`] names the file of `--record`, of `--page`, or the one that
//! `page` writes, and nothing where the options name none of these.

use crate::asked::{file_of, page_of, record_of, schedule_of};
use crate::page::Page;
use elide_args::Subcommand;
use elide_program::{MOST_BYTES, Paths, ReadFault};
use std::fmt;
use std::fmt::Write;
use text_out::Out;

// The path of the schedule.
fn schedule_path<'s>(subcommand: &'s Subcommand<'_>) -> Option<&'s str> {
    schedule_of(subcommand)?.path
}

/// Writes which of the files cannot be read, and why.
pub fn advise_input<P: Paths, O: Out>(
    subcommand: &Subcommand<'_>,
    paths: &mut P,
    page: &mut Page<'_, O>,
) -> fmt::Result {
    for path in [file_of(subcommand), schedule_path(subcommand)] {
        if let Some(path) = path {
            // Whether it can be read shows at its first byte.
            if let Err(ReadFault::Failed(obstacle)) = paths.read(path, 0) {
                return page.put_wrong(path, &obstacle);
            }
        }
    }
    Ok(())
}

/// Writes how long a file may be.
pub fn advise_length<O: Out>(page: &mut Page<'_, O>) -> fmt::Result {
    writeln!(page, "a file has {MOST_BYTES} bytes at most")
}

/// Writes which file cannot be written: either of the two, where a search is asked for its record and its page.
pub fn advise_output<O: Out>(subcommand: &Subcommand<'_>, page: &mut Page<'_, O>) -> fmt::Result {
    match (record_of(subcommand), page_of(subcommand)) {
        (Some(record), Some(run)) => {
            page.put_name(record)?;
            write!(page, " or ")?;
            page.put_wrong(run, &"cannot be written")
        }
        (Some(path), None) => page.put_wrong(path, &"cannot be written"),
        (None, Some(path)) => page.put_wrong(path, &"cannot be written"),
        (None, None) => Ok(()),
    }
}
