//! What the transactions of one place came to.
//!
//! A place is the address of an outermost XBEGIN. Which step is counted at which place is decided in `counts`; here is
//! what one more step makes of the numbers of its place.

ghost use Rattle.std.specs.Prelude.{◌≡◌};
ghost use Rattle.tm_stats.specs.Places.{Fits, after_step};

use crate::tally::plus;
use tm_model::Outcome;

/// What the transactions of one place came to.
#[derive(Clone, Copy, PartialEq, Eq)]
pub struct PlaceCounts {
    /// How many began.
    pub begun: u64,
    /// How many committed.
    pub committed: u64,
    /// How many aborted.
    pub aborted: u64,
    /// How many steps those took that aborted, from XBEGIN to the abort.
    pub lost: u64,
}

/// What none came to.
pub const NO_COUNTS: PlaceCounts = PlaceCounts {
    begun: 0,
    committed: 0,
    aborted: 0,
    lost: 0,
};

impl PlaceCounts {
    // The counts after a step of a transaction that took so many steps before.
    pub(crate) fn after(self, outcome: Outcome, before: u64) -> PlaceCounts
        ensures { Fits self before → result ≡ after_step outcome before self }
    {
        let mut counts = self;
        match outcome {
            Outcome::Begun => counts.begun = plus(counts.begun, 1),
            Outcome::Committed => counts.committed = plus(counts.committed, 1),
            Outcome::Aborted(_) | Outcome::AbortedBy(_, _) => {
                counts.aborted = plus(counts.aborted, 1);
                counts.lost = plus(counts.lost, plus(before, 1));
            }
            _ => {}
        }
        counts
    }
}
