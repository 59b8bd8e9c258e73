//! The program that a command of `elide` works on: FILE, and the options that say how it is loaded.
//!
//! Promised: the number and line of each fault; which number a setting has where its option is given and where it is
//! not; the value of a sum of symbols and numbers, and that each part of memory that is asked for stands at its sum;
//! that a file is read up to 640 MiB, and as image text, as an executable or as a source; that what is loaded is that
//! file with this memory and these starts, or why not; and that a file that is written has the bytes of its text, where
//! its content is told. The order of faults, and that the warnings of a source (`ia_source`) are told once, is compared
//! by `doc_tests`. Stands on the assembler (`ia_asm`), the executables (`ia_elf`) and the image text and loader
//! (`ia_image`); a word of the command line is a number as `ia_lex` reads it.
#![tactic(auto)]

mod again;
mod entries;
mod fault;
mod file;
mod form;
mod host_paths;
mod number;
mod parts;
mod paths;
mod replacing;
mod row;
mod settings;
mod sums;
mod warned;

pub use again::Again;
pub use entries::EntryList;
pub use fault::{ProgramFault, ProgramRefusal};
pub use file::{MOST_BYTES, ProgramFile, read_file, read_source};
pub use form::Form;
pub use host_paths::HostPaths;
pub use parts::{Dump, MemoryParts};
pub use paths::{Obstacle, Paths, ReadFault, Text, name_of};
pub use row::{add, add_text};
pub use settings::{Settings, has_store_buffer, number_of};
pub use sums::sum_of;
pub use warned::WarnedPaths;
