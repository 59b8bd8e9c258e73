//! A board that threads share: one seat a core, a desk that makes their steps one at a time, and workers, one a core.
//!
//! The steps of a seat, one (`Desk::turn`) or several (`Desk::turns`), are made under the desk's one lock. So the
//! history of the board is a list of whole steps in one order, whatever the threads did. Promised: the board that comes
//! back is the run of its history, each outcome the owed one, and what each seat and each report says of its core is
//! so; each abort from outside of the program is of the kinds of the plan, and without events there is none.
//! `run_workers` and `run_steadily` start a worker a core. No clause says which thread comes first, that a turn
//! returns, or that an event comes.
//!
//! It stands on `tm_hist` (boards and their histories), on `tm_ledger` (what a worker knows of its own line while
//! others write theirs) and on `tm_pick` (which events come).
#![tactic(auto)]

mod desk;
mod desk_state;
mod draining;
mod fault;
mod gate;
mod manner;
mod meeting;
mod opening;
mod patient;
mod plan;
mod progress;
mod seat;
mod watch;
mod workers;

pub use desk::Desk;
pub use fault::WorkFault;
pub use gate::Gate;
pub use manner::Burst;
pub use opening::Opening;
pub use plan::EventPlan;
pub use progress::{Progress, Receipt};
pub use seat::{DeskIdentity, Seat};
pub use watch::Watch;
pub use workers::{Report, run_steadily, run_workers};
