//! Which steps made the stores that are pending, so that what a drain hits is told by the one that stored.
//!
//! A [`Stores`] keeps a queue for each core, the oldest store first. It is told of each step behind it what the step
//! does to its core's queue: a [`Change`], by the step's outcome and by whether its own store is pending then. No
//! machine is asked here: whether a store pends is for the caller to know, who asks before the step. Promised: each
//! queue is that of `specs/Stores.antt`. A change takes no memory, and where no store may be pending nothing is kept.
//! Stands on `tm_model`, for the outcomes.
#![tactic(auto)]

mod change;
mod queues;
mod stores;

pub use change::{Change, MadeStore};
pub use stores::Stores;
