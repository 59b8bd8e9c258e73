//! What is told of a step, and the keys of rows.
//!
//! A [`Step`] says what the machine was before the step and what came of it. Keys are compared place first, so that the
//! rows of a place stand together.

use crate::cause::AbortCause;
use tm_model::Outcome;

/// One step of a run, as it is told.
#[derive(Clone, Copy)]
pub struct Step {
    /// The core that stepped.
    pub core: u8,
    /// The EIP of its registers before its open transaction: that of the outermost XBEGIN, also where the step is it.
    pub place: u32,
    /// What the step was.
    pub outcome: Outcome,
    /// Why it aborted. It counts only where the outcome is an abort of the program's own.
    pub cause: AbortCause,
    /// How many lines the read set had before the step. It counts only where the outcome is a commit.
    pub reads: u32,
    /// How many lines the write set had before the step. It counts only where the outcome is a commit.
    pub writes: u32,
}

/// A cause of aborts at a place.
#[derive(Clone, Copy, PartialEq, Eq, PartialOrd, Ord, Hash)]
pub struct PlaceCause {
    /// The address of the XBEGIN.
    pub place: u32,
    /// The cause.
    pub cause: AbortCause,
}

/// A size of committed transactions of a place: how many steps they took, or how many lines they read or wrote.
#[derive(Clone, Copy, PartialEq, Eq, PartialOrd, Ord, Hash)]
pub struct PlaceSize {
    /// The address of the XBEGIN.
    pub place: u32,
    /// The size.
    pub size: u64,
}
