//! What a watch keeps of one core: when its open transaction began, and the hit that condemned it.
//!
//! [`row_after`] says it for each core, [`take_own`] for the one that steps, in place. A hit that stands is not
//! replaced by a later one, and only the core's own step takes it away. A step in whose place an abort from outside
//! came has hit nobody, and one in whose place a store reached memory those that this hits. Which step made that store
//! is for the caller to know.

ghost use Rattle.std.specs.Prelude.{◌≡◌, ◌<◌, Some};
ghost use Rattle.tm_why.specs.Rows.{row_after, row_after_other, row_after_own};
ghost use Rattle.tm_why.specs.Lines.{is_placed};
ghost use Rattle.tm_why.specs.Watched.{eip_by, hit_made, is_drain, standing, step_of};

use crate::asked::Asked;
use tm_model::{Hit, Outcome};
use tm_stores::MadeStore;

/// A hit that condemned a transaction.
#[derive(Clone, Copy, PartialEq, Eq, Debug)]
pub struct StandingHit {
    /// The number of the step that hit, from 1.
    pub step: u64,
    /// The core that made it.
    pub core: u8,
    /// The address of the instruction by which it hit: of a drain, of the one that made the store.
    pub eip: u32,
    /// Whether the step was a drain: a store that had been pending reached memory.
    pub is_drain: bool,
    /// The number of the step that made this store.
    pub stored: Option<u64>,
    /// The line, and how the step used it.
    pub hit: Hit,
}

impl StandingHit {
    /// Whether it is known by which instruction the step hit: of a drain, where it is known which step stored.
    pub fn is_placed(&self) -> bool
        ensures { result ≡ is_placed self.now }
    {
        !self.is_drain || self.stored.is_some()
    }
}

/// What is kept of a core.
#[derive(Clone, Copy, PartialEq, Eq, Debug)]
pub struct Watched {
    /// The number of the step at which its open transaction began, from 1.
    pub begun: Option<u64>,
    /// The hit that condemned it.
    pub hit: Option<StandingHit>,
}

// A core behind its own step, which begins or ends a transaction, or neither.
fn after_own(row: Watched, outcome: Outcome, number: u64) -> Watched
    ensures { result ≡ row_after_own row outcome number }
{
    match outcome {
        Outcome::Begun => Watched {
            begun: Some(number),
            hit: None,
        },
        Outcome::Committed | Outcome::Aborted(_) | Outcome::AbortedBy(_, _) => Watched {
            begun: None,
            hit: None,
        },
        _ => row,
    }
}

/// The row of a core behind its own step of this number, in place.
pub fn take_own(row: &mut Watched, outcome: Outcome, number: u64)
    ensures { row.new ≡ row_after_own row.old outcome number }
{
    match outcome {
        Outcome::Begun | Outcome::Committed | Outcome::Aborted(_) | Outcome::AbortedBy(_, _) =>
            *row = after_own(*row, outcome, number),
        Outcome::Plain
        | Outcome::Loaded
        | Outcome::Stopped(_)
        | Outcome::Idle
        | Outcome::Inside
        | Outcome::Drained => {}
    }
}

// Whether a store that had been pending reached memory in the place of the step.
fn is_drain(outcome: Outcome) -> bool
    ensures { result ≡ is_drain outcome }
{
    matches!(outcome, Outcome::Drained)
}

/// The hit of a step on another core: of a drain, that of the store. A step in whose place an abort from outside came
/// was not made, and hits nobody.
pub fn hit_made(asked: &Asked, outcome: Outcome, core: usize) -> Option<Hit>
    requires { core < 64 }
    ensures { result ≡ hit_made (asked.now, outcome) core }
{
    match outcome {
        Outcome::AbortedBy(_, _) => None,
        Outcome::Drained => asked.drain_hits[core],
        Outcome::Plain
        | Outcome::Loaded
        | Outcome::Stopped(_)
        | Outcome::Idle
        | Outcome::Begun
        | Outcome::Inside
        | Outcome::Committed
        | Outcome::Aborted(_) => asked.hits[core],
    }
}

// The address of the instruction by which a step hit: of a drain, of the one that made the store.
fn eip_by(asked: &Asked, by: Option<MadeStore>) -> u32
    ensures { result ≡ eip_by asked.now by }
{
    match by {
        Some(store) => store.eip,
        None => asked.eip,
    }
}

// The step that made a store.
fn step_of(by: Option<MadeStore>) -> Option<u64>
    ensures { result ≡ step_of by }
{
    Some(by?.step)
}

// A hit by the step of this number; of a drain with the store that reached memory.
fn standing(
    asked: &Asked,
    outcome: Outcome,
    number: u64,
    by: Option<MadeStore>,
    hit: Hit,
) -> StandingHit
    ensures { Some result ≡ standing number (asked.now, outcome) by (Some hit) }
{
    StandingHit {
        step: number,
        core: asked.core,
        eip: eip_by(asked, by),
        is_drain: is_drain(outcome),
        stored: step_of(by),
        hit,
    }
}

// A core behind another core's step, of which the first hit stands.
fn after_other(
    row: Watched,
    hit: Option<Hit>,
    asked: &Asked,
    outcome: Outcome,
    number: u64,
    by: Option<MadeStore>,
) -> Watched
    ensures { result ≡ row_after_other row (asked.now, outcome) hit number by }
{
    match (row.hit, hit) {
        (None, Some(hit)) => Watched {
            begun: row.begun,
            hit: Some(standing(asked, outcome, number, by, hit)),
        },
        _ => row,
    }
}

/// The row of a core behind the step of this number, in whose place, where it is a drain, this store reached memory.
pub fn row_after(
    row: Watched,
    core: usize,
    asked: &Asked,
    outcome: Outcome,
    number: u64,
    by: Option<MadeStore>,
) -> Watched
    requires { core < 64 }
    ensures { result ≡ row_after core asked.now outcome number by row }
{
    if core == asked.core as usize {
        after_own(row, outcome, number)
    } else {
        let hit = hit_made(asked, outcome, core);
        after_other(row, hit, asked, outcome, number, by)
    }
}
