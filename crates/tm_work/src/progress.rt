//! What is known of one core's turns: how many steps, the last of them, and whether there is no more.
//!
//! A [`Progress`] is kept twice, by the seat and by the ledger, and both are written at once (`seat`). Of the steps
//! of other cores it says nothing, but that the last one's place in the history counts them.

use tm_model::Outcome;

/// A step that a turn made.
#[derive(Clone, Copy, PartialEq, Eq, Debug)]
pub struct Receipt {
    /// The place of the step in the board's whole history, from 0 on.
    pub index: usize,
    /// What the step was.
    pub outcome: Outcome,
}

/// What the turns of a seat came to. The seat has it, and so has the ledger under the desk's lock.
#[derive(Clone, Copy, PartialEq, Eq, Debug)]
pub struct Progress {
    /// How many steps they made.
    pub steps: u64,
    /// The last of these steps.
    pub last: Option<Receipt>,
    /// Whether a turn found the core stopped or the history full.
    pub ended: bool,
}
