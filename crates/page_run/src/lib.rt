//! The run that a page shows: how long it is, which of its steps stand there, and pieces of data that are safe to
//! write.
//!
//! Promised: which steps a window holds (`specs/Windows.antt`), and that a piece which is written has no `<`, which
//! could end the element that the data stands in (`specs/Plain.antt`). What a survey finds is compared by `doc_tests`.
//! Stands on `elide_setup`.
#![tactic(auto)]

mod plain;
mod stretch;
mod survey;
mod window;

pub use plain::{put_piece, put_plain};
pub use stretch::Stretch;
pub use survey::{LINE, Survey, UsedLine, note_shown, surveyed};
pub use window::{MOST_STEPS, Window};
