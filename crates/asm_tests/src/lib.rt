//! Tests of the assembler and of the laws of printed text, by public calls: what no row of `doc_tests` shows of
//! sources, and instructions that are printed and read back.
//!
//! It promises nothing; it stands on the crates that it tries. `tests-data/nasm_table` makes the lines that nasm has
//! assembled too.
#![tactic(auto)]

#[cfg(test)]
mod assembling;
#[cfg(test)]
mod memory;
#[cfg(test)]
mod parts;
#[cfg(test)]
mod programs;
#[cfg(test)]
mod round_trips;
#[cfg(test)]
mod sources;
