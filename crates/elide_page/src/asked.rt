//! What is asked for beside the program and its schedule.
//!
//! [`Asked::read`] goes in the order in which faults are told: `--output`, which may not name FILE, `--from` and
//! `--to`, the notes. Whether their numbers fit the run is tested when its length is known, by `command`.

use crate::notes::{Note, notes_of};
use elide_args::PageOptions;
use elide_program::Paths;
use elide_setup::{Extent, Refusal};
use std::alloc::Global;

/// What is asked for beside the program and its schedule.
#[derive(Drop)]
pub struct Asked<'a> {
    /// `--output`: where the page is written.
    pub output: Option<&'a str>,
    /// `--from` and `--to`.
    pub extent: Extent,
    /// `--note`.
    pub notes: Vec<Note<'a>>,
}

impl<'a> Asked<'a> {
    /// Reads `--output`, `--from`, `--to` and `--note`.
    pub fn read<P: Paths>(
        alloc: Global,
        options: &PageOptions<'a>,
        paths: &mut P,
    ) -> Result<Asked<'a>, Refusal> {
        let output = output_path(options.output, options.machine.file, paths)?;
        let extent = Extent::read(options.from, options.to)?;
        let notes = notes_of(alloc, options.notes.as_slice())?;
        Ok(Asked {
            output,
            extent,
            notes,
        })
    }
}

// The path that `--output` gives, which is not that of the program.
fn output_path<'a, P: Paths>(
    path: Option<&'a str>,
    file: &str,
    paths: &mut P,
) -> Result<Option<&'a str>, Refusal> {
    match path {
        Some(path) if paths.is_same_file(path, file) => Err(Refusal::Usage("--output")),
        path => Ok(path),
    }
}
