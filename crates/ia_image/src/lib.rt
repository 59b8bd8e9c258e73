//! Programs that a machine can start: images, the tests of the loader, and image text.
//!
//! Promises that a program which loads is sound (each core has an entry in the code and a stack, and the image lies
//! in memory), that of several faults the first in a fixed order is told, and that an image text that was written
//! is read back. A program keeps its code decoded, also as the flat instructions of `ia_flat`, so that a machine
//! decodes none twice. Stands on `ia_decode`, on `ia_flat`, on `text_out` for writing and on `ia_lex` for lines;
//! takes memory for the image and the decoded code alone.
#![tactic(auto)]

mod decoding;
mod fault;
mod loader;
mod program;
mod text;
mod write;

pub use fault::{ImageFault, LoadFault};
pub use loader::load;
pub use program::Program;
pub use text::{ImageText, read_image};
pub use write::write_image;
