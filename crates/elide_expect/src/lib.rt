//! The tests that stand in the comments of a file, and whether what a command came to meets them.
//!
//! [`read_tests`] reads the text of a source, or of a file beside an executable: commands behind `elide:`, and behind
//! `expect:` what is expected of the command above (docs/FORMATS.md, "Tests"). [`CameTo`] is what a command came to,
//! and [`Test::judge`] compares the two.
//!
//! Promised: the tests that are read are those that `specs/Tests.antt` states for the text, or the first line that
//! cannot be read; and a verdict is `Passes` exactly where the status and the lines are those that are expected, as
//! `specs/Judged.antt` states. Stands on `ia_lex` (lines and numbers) and `text_out` (hex digits); carries nothing out.
#![tactic(auto)]

mod comment;
mod expectation;
mod fault;
mod file;
mod fronts;
mod judge;
mod pieces;
mod suits;
#[cfg(test)]
mod tests;
mod text;
mod wanted;
mod words;

pub use comment::Kind;
pub use expectation::{Expectation, Expected, Rule};
pub use fault::TestFault;
pub use file::{Test, TestFile, read_tests};
pub use judge::{CameTo, Difference, Verdict};
