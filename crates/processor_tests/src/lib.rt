//! Tests of calculation and execution against a processor: results and flags at the edges, as it gives them.
//!
//! Stands on `ia_alu`, `ia_exec` and what they stand on, and has no function of its own. `tests-data/` has the programs
//! that asked a processor, and printed the tables.
#![tactic(auto)]

#[cfg(test)]
mod arithmetic;
#[cfg(test)]
mod execution;
#[cfg(test)]
mod numbers;
