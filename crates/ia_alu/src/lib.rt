//! Results and flags of the arithmetic and logic instructions, on numbers alone.
//!
//! Promises for each of them the result, all six flags by the definitions in `specs/`, and each flag once more as a
//! fact on whole numbers: a carry is a sum that does not fit, an overflow a signed one. What Intel's manual leaves
//! undefined is kept as it was. Stands on `ia_regs` and `ia_word`; takes no memory.
#![tactic(auto)]

mod bits;
mod divide;
mod numbers;
mod ops;
mod products;
mod shifts;
mod sums;

pub use bits::bit;
pub use divide::Divide;
pub use ops::{alu, incdec, neg};
pub use products::{div, idiv, imul, imul_low, mul};
pub use shifts::shift;
pub use sums::{add, sub};
