//! Command lines that make a run again: their words, as a shell reads them, the options of a machine, and the option
//! that says a schedule; the word of a step; and texts from outside as they are shown to a person.
//!
//! Promised: each call writes the text of `specs/Shell.antt`, `specs/Options.antt` or `specs/Controls.antt`. A shell,
//! which reads by `specs/Reading.antt`, reads each word back as it was, and no control character is written of a word
//! or a text.
#![tactic(auto)]

mod escapes;
mod laws;
mod machine;
mod schedule;
mod step;
mod words;

pub use escapes::{Mark, put_escaped};
pub use laws::{no_control_is_written, words_read_back};
pub use machine::{put_machine, put_option};
pub use schedule::{MOST_SHOWN, put_schedule};
pub use step::{StepWord, step_word};
pub use words::{put_path, put_word};
