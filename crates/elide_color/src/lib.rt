//! Colours of what `elide` writes, as sequences of ECMA-48, which terminals know.
//!
//! Promises when text is painted, and each painted text letter by letter; of a device that paints words, that it fails
//! where the one behind it fails, and where nothing is painted that its text goes on as it is. Stands on `text_out` for
//! devices and rows. Takes no memory.
#![tactic(auto)]

mod colors;
mod style;
mod words;

pub use colors::{Colors, When};
pub use style::{ENDING, Style, push_painted};
pub use words::{PaintedWords, Painting};
