//! Instructions outside of the subset: how long they are, and what they are called.
//!
//! The decoder refuses what the subset does not have. Of such bytes this crate tells the length of the instruction of
//! IA-32 that they spell, where the opcode maps of Intel's SDM (volume 2, appendix A) make it sure, and words for it,
//! as `16-bit move` or `rdtsc`. What a foreign instruction would do is not said here, nor whether a processor knows
//! it: VEX, EVEX and opcodes that the maps leave empty get no length.
//!
//! Promises that a length is told only where the decoder refuses the bytes, that it is the one which the stated maps
//! give (`specs/Length.antt`), and that it is at least 1 and never beyond the bytes. The words are compared with a
//! disassembler by `scripts/compare-foreign`; no clause speaks of their text. Stands on `ia_decode` and `ia_insn`;
//! takes no memory.
#![tactic(auto)]

mod behind;
mod foreign;
mod maps;
mod names;
mod names_0f;
mod prefixes;
mod words;

pub use foreign::{Foreign, foreign_in};
pub use words::Words;
