//! The forms of instructions: which instruction a mnemonic and operands write.
//!
//! Promised by `instruction`: the instruction that a mnemonic takes such operands for, exactly where it takes them and
//! the subset has its encoding (SDM volume 2, the page of each instruction). Numbers and displacements stand as 0.
//!
//! Stands on `ia_insn`, whose instructions it gives.
#![tactic(auto)]

mod form;
mod shape;

pub use form::instruction;
pub use shape::{OperandShape, OperandShapes};
