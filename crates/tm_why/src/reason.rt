//! Why a step was an abort, as a value: the machine's reason, with what was watched of the transaction.
//!
//! `watch` makes a [`Reason`] before the step is taken in, and `line` writes it. An abort from outside has none, as
//! its outcome says all.

use crate::row::Watched;
use tm_model::AbortReason;

/// Why a step was an abort, and what was known of its transaction.
#[derive(Clone, Copy, PartialEq, Eq, Debug)]
pub struct Reason {
    /// The machine's reason.
    pub cause: AbortReason,
    /// Where the core stood: the address of the instruction that would have been next. Of a transaction that was
    /// condemned, that of its outermost XBEGIN.
    pub eip: u32,
    /// When the transaction began, and the hit that condemned it, if one did.
    pub transaction: Watched,
}
