//! Why a store is not taken (30), or a buffer not made (33): a type for each, as no call can end in both ways.
//!
//! A store by slots is never refused: who has slots for its lines has room. So a machine, whose sets refuse a line
//! before (`tm_sets`), never sees 30.

ghost use Rattle.std.specs.Prelude.{◌≡◌};

use std::alloc::AllocError;
use thiserror::Error;

/// The lines of the store and those already used are together more than the buffer has room for.
#[derive(Clone, Copy, PartialEq, Eq, Debug, Drop, Error)]
#[error("Full")]
pub struct Full;

impl Full {
    /// The fault's number.
    pub fn code(self) -> u8
        ensures { result ≡ 30 }
    {
        30
    }
}

/// There is no memory for the buffer.
#[derive(Clone, Copy, PartialEq, Eq, Debug, Drop, Error)]
#[error("NoMemory")]
pub struct NoMemory;

impl NoMemory {
    /// The fault's number.
    pub fn code(self) -> u8
        ensures { result ≡ 33 }
    {
        33
    }
}

impl From<AllocError> for NoMemory {
    fn from(_refused: AllocError) -> NoMemory {
        NoMemory
    }
}
