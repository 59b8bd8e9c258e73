//! Why a search was not made to its end: limits that are out of range, or want of memory.
//!
//! The limits are tested by the first machine, before a state is looked at. A search that ends at its limit on
//! states is no fault, but says so: [`Search::is_cut`](crate::Search::is_cut).

ghost use Rattle.std.specs.Prelude.{◌≡◌};
ghost use Rattle.tm_outcomes.specs.declared.fault.SearchFault.TheVariants.{NoMemory};

use std::alloc::AllocError;
use thiserror::Error;

/// Why a search was not made to its end.
#[derive(Clone, Copy, PartialEq, Eq, Debug, Drop, Error)]
pub enum SearchFault {
    /// A limit on lines is not 1 to 4096.
    #[error("BadLimits")]
    BadLimits,
    /// There is no memory for a machine, a schedule or the states.
    #[error("NoMemory")]
    NoMemory,
}

impl From<AllocError> for SearchFault {
    ghost from_gives = { λ _ e. e ≡ NoMemory };

    fn from(_refused: AllocError) -> SearchFault {
        SearchFault::NoMemory
    }
}
