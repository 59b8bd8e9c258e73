//! Why the tests of a file were not read, with the line where that shows; the first one is told.

ghost use Rattle.std.specs.Prelude.{◌≡◌};
ghost use Rattle.elide_expect.specs.declared.fault.TestFault.TheVariants.{NoMemory};

use std::alloc::{AllocError, AllocFailed};
use thiserror::Error;

/// Why the tests of a file were not read.
#[derive(Clone, Copy, PartialEq, Eq, Debug, Error)]
pub enum TestFault {
    /// This line, counted from 1, is the first that cannot be read.
    #[error("BadTest")]
    BadTest(usize),
    /// The tests found no memory.
    #[error("NoMemory")]
    NoMemory,
}

impl From<AllocError> for TestFault {
    ghost from_gives = { λ _ e. e ≡ NoMemory };

    fn from(_error: AllocError) -> Self {
        TestFault::NoMemory
    }
}

impl<T: Drop> From<AllocFailed<T>> for TestFault {
    ghost from_gives = { λ _ e. e ≡ NoMemory };

    fn from(_error: AllocFailed<T>) -> Self {
        TestFault::NoMemory
    }
}
