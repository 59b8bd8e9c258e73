//! `elide explain`: what each fault's number means, and what to do.
//!
//! Promises no more than safety: that each number and name is explained, and each text, are compared by `doc_tests`,
//! which runs the commands of docs/FAULTS.md. Stands on `elide_setup`.
#![tactic(auto)]

mod command;
mod entry;
mod faults;

pub use command::explain;
