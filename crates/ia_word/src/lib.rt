//! Words of an IA-32 machine: widths, bytes, lines of memory, registers, and the kinds of operations and conditions.
//!
//! Every crate of the machine speaks in these words, and their definitions in `specs/` are the lowest that a reader
//! meets. Each function is its definition there: a byte's sign extension, the bytes of a doubleword, the lines of an
//! access, the number of a condition. Stands on no other crate of the machine, takes no memory and calls nothing.
#![tactic(auto)]

mod bytes;
mod condition;
mod line;
mod operation;
mod register;
mod width;

pub use bytes::{from_le, le_bytes, parity_even, sign_extend};
pub use condition::Condition;
pub use line::{line_of, lines_of};
pub use operation::{
    AluOp, BareOp, BitOp, ExchangeOp, ExtendOp, IncDecOp, LoopOp, ShiftOp, UnaryOp,
};
pub use register::{CL, EAX, EBP, EBX, ECX, EDI, EDX, ESI, ESP};
pub use width::Width;
