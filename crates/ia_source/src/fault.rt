//! Why a source has no entries.

ghost use Rattle.std.specs.Prelude.{◌≡◌};
ghost use Rattle.ia_source.specs.declared.fault.SourceFault.TheVariants.{NoMemory};

use std::alloc::{AllocError, AllocFailed};

/// What is wrong with a line. A line that has several is told the first in this order.
#[derive(Clone, Copy, Debug, PartialEq, Eq)]
pub enum Why {
    /// A character or a number that is no token.
    BadToken,
    /// Anything but a mnemonic or a directive in its place.
    NotInSubset,
    /// A symbol that is defined above.
    SymbolTwice,
    /// Operands that fit no form.
    BadOperand,
}

/// Why a source has no entries.
#[derive(Clone, Copy, Debug, PartialEq, Eq)]
pub enum SourceFault {
    /// The first line that is wrong, counted from 1, and what is wrong with it. Lines behind number u32::MAX count as
    /// that one.
    Line {
        /// Its number.
        line: u32,
        /// What is wrong.
        why: Why,
    },
    /// No memory was left.
    NoMemory,
}

impl From<AllocError> for SourceFault {
    ghost from_gives = { λ _ e. e ≡ NoMemory };

    fn from(_error: AllocError) -> Self {
        SourceFault::NoMemory
    }
}

impl<T: Drop> From<AllocFailed<T>> for SourceFault {
    ghost from_gives = { λ _ e. e ≡ NoMemory };

    fn from(_error: AllocFailed<T>) -> Self {
        SourceFault::NoMemory
    }
}
