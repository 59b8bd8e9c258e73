//! The devices of a command: what it reads from and writes to, before one of the system's stands behind them.
//!
//! `surroundings` and `terminals` say what the devices are and what their user asks of all programs, `gathered` keeps
//! text until its room is full, `lent` stands for a device behind a reference, and `progress` is told how far long work
//! is. Promised: that text which is gathered is handed on, in its order; what is painted and told. Takes no memory;
//! stands on `text_out` and `elide_color`.
#![tactic(auto)]

mod gathered;
mod lent;
mod progress;
mod surroundings;
mod terminals;

pub use gathered::Gathered;
pub use lent::Lent;
pub use progress::{Progress, Silent};
pub use surroundings::Surroundings;
pub use terminals::Terminals;
