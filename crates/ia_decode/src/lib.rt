//! The instruction that bytes spell, or why they spell none.
//!
//! Promises that what stands in front is answered, with its length, wherever some instruction of the subset does; that
//! each of the three faults comes exactly where its words say; and that no byte behind the one that decides is read.
//! Stands on `ia_insn`, whose opcode maps it follows row by row, and on `ia_modrm`; takes no memory.
#![tactic(auto)]

mod groups;
mod opcodes;
mod rows;
mod rows_40;
mod rows_80;
mod rows_a0;
mod rows_c0;
mod two_byte;
mod whole;

pub use whole::{Decoded, decode};
