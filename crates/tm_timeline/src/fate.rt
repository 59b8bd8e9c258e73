//! What transactions come to, with the word and the class that a bar has for it: a commit, or the cause that the status
//! of an abort tells, or the event that aborted it.

ghost use Rattle.std.specs.Prelude.{◌≡◌};
ghost use Rattle.tm_timeline.specs.Fates.{fate_at, fate_of};

use tm_model::{Interference, Outcome};
use tm_status::causes;

/// What a transaction came to.
#[derive(Clone, Copy)]
pub enum Fate {
    /// It was committed.
    Committed,
    /// A conflict aborted it, with this status.
    Conflict(u32),
    /// Something else aborted it, with this status.
    Other(u32),
    /// It was aborted from outside of the program, with this status.
    Outside(Interference, u32),
    /// It was hit, and the run ended before the abort.
    Doomed,
    /// It was open, and not hit, where the run ended.
    Open,
}

/// What a transaction came to that was aborted with this status: the cause is the one that the status tells.
pub fn fate_of(status: u32) -> Fate
    ensures { result ≡ fate_of status }
{
    if causes(status).conflict {
        Fate::Conflict(status)
    } else {
        Fate::Other(status)
    }
}

/// What a transaction came to that a step of this outcome ends, if it ends one. That of an abort from outside goes by
/// the outcome, since the status alone may tell of a conflict.
pub fn fate_at(outcome: Outcome) -> Option<Fate>
    ensures { result ≡ fate_at outcome }
{
    match outcome {
        Outcome::Committed => Some(Fate::Committed),
        Outcome::Aborted(status) => Some(fate_of(status)),
        Outcome::AbortedBy(interference, status) => Some(Fate::Outside(interference, status)),
        Outcome::Plain
        | Outcome::Loaded
        | Outcome::Stopped(_)
        | Outcome::Idle
        | Outcome::Begun
        | Outcome::Inside
        | Outcome::Drained => None,
    }
}

impl Fate {
    /// The word that stands on a bar.
    pub fn word(self) -> &'static str {
        match self {
            Fate::Committed => "commit",
            Fate::Conflict(_) => "conflict",
            Fate::Other(status) => cause_word(status),
            Fate::Outside(interference, _) => outside_word(interference),
            Fate::Doomed => "doomed",
            Fate::Open => "open",
        }
    }

    /// The class of its bar.
    pub fn class(self) -> &'static str {
        match self {
            Fate::Committed => "k",
            Fate::Conflict(_) | Fate::Doomed => "x",
            Fate::Other(_) | Fate::Outside(_, _) => "o",
            Fate::Open => "p",
        }
    }
}

// The word of an abort from outside of the program.
fn outside_word(interference: Interference) -> &'static str {
    match interference {
        Interference::Interrupt => "interrupt",
        Interference::Eviction => "eviction",
        Interference::Snoop => "snoop",
    }
}

// The word of a status that tells no conflict.
fn cause_word(status: u32) -> &'static str {
    let causes = causes(status);
    if causes.explicit.is_some() {
        "xabort"
    } else if causes.capacity {
        "capacity"
    } else if causes.debug {
        "int3"
    } else {
        "other"
    }
}
