//! The lines of a source and their tokens, and the expressions that tokens write.
//!
//! The syntax is NASM's (NASM manual, chapter 3, "The NASM Language"): names, numbers with a prefix or a suffix,
//! quoted characters, marks, and a comment behind `;`. An `Expression` is a sum or difference of at most 16 `Term`s,
//! each a number or a symbol (`Atom`), whose value is a whole number.
//!
//! Promised: `first_line` gives the lines of a text one by one, `tokens` exactly the tokens of a line or that something
//! in it is no token, `only_word` the word that is a line's only token, and `expression`, `word_number` and
//! `register_of` what their tokens and words say.
//!
//! It stands on `ia_word` for the widths of registers.
#![tactic(auto)]

mod chars;
mod lines;
mod number;
mod read;
mod scan;
mod terms;
mod token;
mod words;

pub use lines::{first_line, without_cr};
pub use number::word_number;
pub use read::{atom, expression, sign};
pub use scan::{only_word, tokens};
pub use terms::{Atom, Expression, Term};
pub use token::{LexFault, Token};
pub use words::{find_word, is_word, register_of};
