//! Why a line is not added (31), or the sets or a list not made (32).
//!
//! `Full` is what a transaction's capacity means: the machine aborts it for that (`tm_core`). Want of memory comes only
//! when sets are made and when lines are listed.

ghost use Rattle.std.specs.Prelude.{◌≡◌};

use std::alloc::{AllocError, AllocFailed};
use thiserror::Error;

/// The core has no room for a further line of this kind.
#[derive(Clone, Copy, PartialEq, Eq, Debug, Drop, Error)]
#[error("Full")]
pub struct Full;

impl Full {
    /// The fault's number.
    pub fn code(self) -> u8
        ensures { result ≡ 31 }
    {
        31
    }
}

/// There is no memory for the sets, or for a list of their lines.
#[derive(Clone, Copy, PartialEq, Eq, Debug, Drop, Error)]
#[error("NoMemory")]
pub struct NoMemory;

impl NoMemory {
    /// The fault's number.
    pub fn code(self) -> u8
        ensures { result ≡ 32 }
    {
        32
    }
}

impl<T: Drop> From<AllocFailed<T>> for NoMemory {
    fn from(_refused: AllocFailed<T>) -> NoMemory {
        NoMemory
    }
}

impl From<AllocError> for NoMemory {
    fn from(_refused: AllocError) -> NoMemory {
        NoMemory
    }
}
