//! Addresses of operands in memory, and what an instruction loads.
//!
//! Promises the address of each operand, modulo 2^32, and for each instruction the one access that it reads, or that it
//! reads none. Both are decided by the registers before the instruction. Stands on `ia_insn` and `ia_regs`; takes no
//! memory.
#![tactic(auto)]

mod address;
mod load;

pub use address::address_of;
use ia_word::Width;
pub use load::load_of;

/// A byte or a doubleword in memory.
#[derive(Clone, Copy, PartialEq, Eq, Debug)]
pub struct Access {
    /// The address of its lowest byte.
    pub addr: u32,
    /// How many bytes: 1 or 4.
    pub width: Width,
}
