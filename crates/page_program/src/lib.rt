//! A program as a page shows it: the lines of its source or of a listing, and which instruction stands in which line.
//!
//! Of an executable with line numbers the sources that stand beside it are shown in place of what comes from them
//! ([`Sources::beside`]). What is written is compared by `doc_tests`. Stands on `elide_setup`, `elide_places` and
//! `page_text`.
#![tactic(auto)]

mod code;
mod lines;
mod listing;
mod program;
mod sources;

pub use code::Loaded;
pub use program::write_program;
pub use sources::Sources;
