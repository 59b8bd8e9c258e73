//! ModRM and SIB bytes, displacements and numbers: read from the front of a slice, and written behind what stands in a
//! buffer of 15 bytes.
//!
//! Promises that each is read and written as the definitions of `ia_insn` say, and that reading tells `Short` exactly
//! where the bytes end too early. Stands on `ia_insn`; takes no memory.
#![tactic(auto)]

mod reading;
mod writing;

pub use reading::{ModRm, byte, long, memory, operand, signed_byte, word};
pub use writing::{Bytes, put_long, put_operand};
