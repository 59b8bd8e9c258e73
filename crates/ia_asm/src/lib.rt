//! Assembles a source: places its items, and gives the image, the symbols and the listing.
//!
//! The syntax is NASM's (NASM manual, chapter 3, "The NASM Language"), the bytes are those of SDM volume 2.
//!
//! Promised by `assemble`: the lines of the source ask for entries, and image, base, code length, symbols and listing
//! are theirs; or the source is refused for the first line that is at fault, and the first thing that is wrong with it;
//! or memory was refused, or the source would take more than it may. `assemble_image` promises the same without the
//! listing, which it does not make, and with it the line of each instruction and which of the symbols are labels;
//! `assemble_code` and `assemble_listing` promise the image and the listing alone. By `source_gives_one_image`, that a
//! source has one image.
//!
//! The entries of the source are gone over, some of them at a time, for the base, for the end of the code, for the
//! symbols, for faults, and then for all that is given.
//!
//! It stands on `ia_source` for the entries, `ia_layout` for their places and bytes, and `ia_text` for the listing.
#![tactic(auto)]

mod assembly;
mod code;
mod fault;
mod faults;
mod from_source;
mod laws;
mod listing;
mod marks;
mod named_values;
mod program_layout;

pub use assembly::{CodeImage, ProgramImage, Unit};
pub use fault::AsmFault;
pub use from_source::{assemble, assemble_code, assemble_image, assemble_listing};
pub use laws::source_gives_one_image;
pub use marks::{CodeLine, SymbolKind};
