//! The bytes of an instruction.
//!
//! Promises for each encodable instruction the one spelling that is written, that it spells the instruction, and that
//! it is read again as the same instruction and as many bytes. Stands on `ia_insn` and `ia_modrm`; takes no memory.
#![tactic(auto)]

mod parts;
mod whole;
mod wide;
mod width;
mod writing;

pub use whole::{encode, encode_with};
