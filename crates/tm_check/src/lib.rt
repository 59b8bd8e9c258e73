//! What is checked of a run at its end.
//!
//! Promised: a check is violated exactly where its definition says so, and the first of several that is violated is
//! answered; and a count of a run is that of the outcomes in its history. The words for it stand in `specs/Checks.antt`
//! and `specs/Counts.antt`, over the boards of `tm_hist` and the conditions of `tm_condition`.
#![tactic(auto)]

mod check;
mod clause;
mod count;

pub use check::{Check, first_violated, has_ended};
pub use clause::{Quantity, RunClause};
pub use count::{AbortKind, Cores, Count};
