//! The commands of the debugger as they are read, the refusals of a line, and the names that both know.
//!
//! Promised: a line is the command, or the refusal, that `specs/Commands.antt` says, by the symbols of a program; the
//! lines that tell a refusal, plainly or with words; and which label tells an address. Stands on `symbols`, on `ia_lex`
//! (numbers), `tm_schedule` (the word of a step), `ia_text` (listings) and `text_out` (devices); takes no memory.
#![tactic(auto)]

mod address;
mod command;
mod manner;
mod names;
mod number;
mod places;
mod refusal;
mod words;

pub use command::{CommandName, DebugCommand, read_command};
pub use manner::Manner;
pub use names::Names;
pub use places::{write_labelled, write_place};
pub use refusal::{CommandRefusal, Range, refuse};
pub use words::split_word;
