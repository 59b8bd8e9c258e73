//! Where the instructions and the labels of a program stand, and which symbols its file has.
//!
//! Promised: of the symbols of a file each name stands for what it stands for there (`specs/FileSymbols.antt`), and a
//! row of names that are shown has printable ASCII alone. Of places no more than safety: what is told by them is
//! compared by `doc_tests`. Stands on the file that was read (`elide_program`), whose assembly keeps the places of a
//! source (`ia_asm`), on the readers of executables and of their line numbers (`ia_elf`, `ia_lines`), and on `symbols`.
#![tactic(auto)]

mod file_names;
mod file_symbols;
mod places;
mod source_text;
mod symbol_text;

pub use file_names::{FileNames, Wants};
pub use file_symbols::symbols_of;
pub use places::{Places, placed_symbols};
pub use source_text::push_source_place;
pub use symbol_text::{Naming, SymbolText, push_code_place, push_symbols};
