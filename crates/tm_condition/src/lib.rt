//! Conditions on a machine: registers of cores, doublewords in memory and numbers, compared with one another, and bytes
//! in memory.
//!
//! Promised: what an item is of a machine, that it has none where the core or the bytes are not there, and that a
//! condition holds, and a check is violated, exactly where its definition says so. The words for it stand in
//! `specs/Conditions.antt`, over what is looked at of a machine alone: its memory, and of each core the registers
//! outside of transactions. No history is asked, so that a search over states can ask the same.
//!
//! Stands on `tm_core`, whose machines it looks at, and `ia_word`.
#![tactic(auto)]

mod check;
mod clause;
mod comparison;
mod item;

pub use check::Check;
pub use clause::{Clause, all_hold};
pub use comparison::Comparison;
pub use item::Item;
