//! One step of a history, in six bytes: [`Pair::new`] packs it, and [`Pair::outcome`] gives back the same outcome.
//!
//! A board asks for room for up to 16,777,216 of them before its first step. Lists that a caller has are not
//! packed, but step by step as they are run (`one_memory`).

ghost use Rattle.std.specs.Prelude.{◌≡◌};
ghost use Rattle.tm_hist.specs.History.{outcome_of, pair_of};

use ia_word::{from_le, le_bytes};
use tm_model::{Interference, Outcome};
use tm_rule::Stop;

/// An outcome, with the status of an abort in bytes, so that it needs no alignment.
#[derive(Clone, Copy, Debug)]
pub enum PackedOutcome {
    Plain,
    Loaded,
    Stopped(Stop),
    Idle,
    Begun,
    Inside,
    Committed,
    Aborted([u8; 4]),
    Interrupted([u8; 4]),
    Evicted([u8; 4]),
    Snooped([u8; 4]),
    Drained,
}

/// The core that stepped, and its outcome.
#[derive(Clone, Copy, Debug)]
pub struct Pair {
    pub core: u8,
    pub outcome: PackedOutcome,
}

// A history may have 16,777,216 steps.
const _: () = prove!(size_of::<Pair>() == 6);

fn pack(outcome: Outcome) -> PackedOutcome
    ensures { outcome_of result ≡ outcome }
{
    match outcome {
        Outcome::Plain => PackedOutcome::Plain,
        Outcome::Loaded => PackedOutcome::Loaded,
        Outcome::Stopped(stop) => PackedOutcome::Stopped(stop),
        Outcome::Idle => PackedOutcome::Idle,
        Outcome::Begun => PackedOutcome::Begun,
        Outcome::Inside => PackedOutcome::Inside,
        Outcome::Committed => PackedOutcome::Committed,
        Outcome::Aborted(status) => PackedOutcome::Aborted(le_bytes(status)),
        Outcome::AbortedBy(interference, status) => pack_abort(interference, status),
        Outcome::Drained => PackedOutcome::Drained,
    }
}

// An abort from outside of the program.
fn pack_abort(interference: Interference, status: u32) -> PackedOutcome
    ensures { outcome_of result ≡ Outcome.AbortedBy interference status }
{
    match interference {
        Interference::Interrupt => PackedOutcome::Interrupted(le_bytes(status)),
        Interference::Eviction => PackedOutcome::Evicted(le_bytes(status)),
        Interference::Snoop => PackedOutcome::Snooped(le_bytes(status)),
    }
}

impl PackedOutcome {
    /// The outcome.
    pub fn unpacked(&self) -> Outcome
        ensures { result ≡ outcome_of self.now }
    {
        match self {
            PackedOutcome::Plain => Outcome::Plain,
            PackedOutcome::Loaded => Outcome::Loaded,
            PackedOutcome::Stopped(stop) => Outcome::Stopped(*stop),
            PackedOutcome::Idle => Outcome::Idle,
            PackedOutcome::Begun => Outcome::Begun,
            PackedOutcome::Inside => Outcome::Inside,
            PackedOutcome::Committed => Outcome::Committed,
            PackedOutcome::Aborted(status) => Outcome::Aborted(from_le(*status)),
            PackedOutcome::Interrupted(status) => {
                Outcome::AbortedBy(Interference::Interrupt, from_le(*status))
            }
            PackedOutcome::Evicted(status) => {
                Outcome::AbortedBy(Interference::Eviction, from_le(*status))
            }
            PackedOutcome::Snooped(status) => {
                Outcome::AbortedBy(Interference::Snoop, from_le(*status))
            }
            PackedOutcome::Drained => Outcome::Drained,
        }
    }
}

impl Pair {
    /// Keeps a step.
    pub fn new(core: u8, outcome: Outcome) -> Pair
        ensures { pair_of result ≡ (core, outcome) }
    {
        Pair {
            core,
            outcome: pack(outcome),
        }
    }

    /// The outcome that is kept.
    pub fn outcome(&self) -> Outcome
        ensures { result ≡ outcome_of self.now.outcome }
    {
        self.outcome.unpacked()
    }
}
