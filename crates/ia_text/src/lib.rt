//! Instructions and listings as text.
//!
//! Promises the text of each instruction at an address, letter by letter by the definitions in `specs/`, and the
//! listing of any bytes; of a call that fails, that a beginning of its text was written and the failure counted. Stands
//! on `ia_decode`, `ia_insn` and `text_out`, whose devices its calls take; takes no memory.
#![tactic(auto)]

mod arg;
mod arguments;
mod listing;
mod names;
mod print;

pub use arg::Arg;
pub use listing::{disassemble, write_line};
pub use print::write_insn;
