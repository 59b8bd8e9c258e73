//! Executables in ELF: what the loadable segments of an IA-32 file state, and its symbols.
//!
//! Promises that the bytes which are told are those that the segments state and zeros between them, nothing else; that
//! the code is what the executable segments state, in front; that of several faults the first in a fixed order is told;
//! that a symbol's value is the one of the table's first entry of that name; and that the bytes which are told of a
//! section are those of the file's first section of that name. Stands on no other crate of the machine; takes memory
//! for the bytes alone, since symbols borrow the file.
#![tactic(auto)]

mod elf;
mod fault;
mod fields;
mod layout;
mod memory;
mod order;
mod sections;
mod segment;
mod symbols;
mod tables;
mod whole;

pub use elf::{Elf, read_elf};
pub use fault::ElfFault;
pub use fields::is_elf;
pub use sections::section_named;
pub use symbols::Symbol;
