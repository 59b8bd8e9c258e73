//! The texts that go into a page: strings of JSON within a `script` element, the title, numbers and hex digits.
//!
//! [`write_string`] and [`write_title`] take any bytes from outside, as the name of a file or of a symbol. First the
//! text becomes what is shown of it (`specs/Shown.antt`): ill-formed UTF-8 is U+FFFD, what does not print or turns the
//! direction of text stands by its number, and of a long text a front stands, with `..` behind it. Then each character
//! is escaped (`specs/Escaped.antt`), so that all bytes are printable ASCII and none of them is `<` or `>`: no text
//! ends the element, and none is markup. A string has no `&` either, and reads back: its value, by the grammar of JSON,
//! is what is shown. Takes no memory. Stands on `text_out` and `bstr`.
#![tactic(auto)]

mod comma;
mod escape;
mod hidden;
mod number;
mod shown;
mod text;

pub use comma::write_comma;
pub use number::{write_hex, write_number};
pub use text::{write_string, write_title};

/// How many characters of a name are shown.
pub const NAME: usize = 60;
/// How many of a line of a program.
pub const LINE: usize = 240;
/// How many of a title.
pub const TITLE: usize = 200;
/// How many of the reason of an abort or a stop.
pub const REASON: usize = 400;
/// How many of a note.
pub const NOTE: usize = 600;
