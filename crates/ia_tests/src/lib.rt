//! Tests of the crates of instructions, by their public calls: words and registers, the bytes of operands, spellings,
//! addresses and loads, and the names of faults, on values that come from outside, from Intel's manual and other
//! assemblers; execution, by what the manual says that an instruction comes to; lines of listings, their devices and
//! images, on values by hand, which no row of `doc_tests` shows.
//!
//! They stand here, and not in the crates themselves, so that each of those is proved once. Stands on `ia_word`,
//! `ia_regs`, `ia_modrm` and `ia_insn`, those that read, write, print and execute an instruction, and `ia_image`, and
//! has no function of its own.
#![tactic(auto)]

#[cfg(test)]
mod addresses;
#[cfg(test)]
mod execution;
#[cfg(test)]
mod images;
#[cfg(test)]
mod instructions;
#[cfg(test)]
mod listings;
#[cfg(test)]
mod operands;
#[cfg(test)]
mod registers;
#[cfg(test)]
mod rows;
#[cfg(test)]
mod spellings;
#[cfg(test)]
mod words;
