//! What the JSON objects of commands have in common: the line of an object, and the members that it sends.
//!
//! [`object_line`] takes an object that sends itself to a writer of `serde`, and gives its JSON; the other calls send
//! its parts, in the order in which they are to stand. Promised: an object that sends what a value of JSON does has the
//! text of that value, without spaces, and a line feed behind it; a member has this name and this value, and the words
//! of a schedule are those that `--steps` takes (`specs/Object.antt`). Stands on `serde_json`.
#![tactic(auto)]

mod line;
mod members;
mod schedule;

pub use line::object_line;
pub use members::{send_flag, send_number, send_numbers, send_text, send_text_or_null, send_texts};
pub use schedule::send_schedule;
