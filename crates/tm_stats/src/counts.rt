//! The counts of a run.
//!
//! [`RunCounts::note`] takes a step after another, from the first on: it makes room for all rows that the step may
//! need, and only then counts. [`RunCounts::sort`] comes once, behind the last. Hits are counted by `conflicts`.

ghost use Rattle.std.specs.Prelude.{◌≡◌, ◌+◌, ◌^◌, ◌<◌, ◌&&◌, ◌∷◌, [], ℕ, List, OnErr, OnOk, if◌then◌else◌};
ghost use Rattle.std.specs.Prelude.{length, nat_eq};
ghost use Rattle.indexmap.specs.IndexMap.{spare};
ghost use Rattle.tm_stats.specs.Causes.{cause_counted};
ghost use Rattle.tm_stats.specs.Counts.{is_aborted, is_committed, is_idle, is_outside, open_after, same_cause};
ghost use Rattle.tm_stats.specs.Counts.{same_size};
ghost use Rattle.tm_stats.specs.Places.{Fits, after_step, counts_at};
ghost use Rattle.tm_stats.specs.Tally.{counted, total_of};

use crate::cause::AbortCause;
use crate::open_bytes::is_drained;
use crate::place_counts::{NO_COUNTS, PlaceCounts};
use crate::step::{PlaceCause, PlaceSize, Step};
use crate::tally::{Tally, add_one, count_if, plus};
use indexmap::IndexMap;
use std::alloc::{AllocError, Global};
use tm_model::Outcome;

/// The counts of a run of fewer than 2^32 steps.
#[derive(Drop)]
pub struct RunCounts {
    /// How many steps were told.
    pub steps: u64,
    /// How many of them were outside of transactions.
    pub outside: u64,
    /// How many of them were of cores that had stopped.
    pub idle: u64,
    /// How many of them were drains of stores that were pending.
    pub drained: u64,
    /// For each core, how many steps it has made in its open transaction; 0 where it has none.
    pub under_way: [u64; 256],
    /// What the transactions of each place came to.
    pub places: IndexMap<u32, PlaceCounts>,
    /// How many of them aborted, by cause.
    pub causes: Tally<PlaceCause>,
    /// How many of them committed, by their steps.
    pub lengths: Tally<PlaceSize>,
    /// How many of them committed, by the lines that they read.
    pub reads: Tally<PlaceSize>,
    /// How many of them committed, by the lines that they wrote.
    pub writes: Tally<PlaceSize>,
}

impl RunCounts {
    ghost use Rattle.tm_stats.specs.Counts.{AreCounts, HasRoom, SameCounts};
    ghost use Rattle.tm_stats.specs.declared.step.Step.{Step};

    /// The counts of no step.
    pub fn new(alloc: Global) -> RunCounts
        ensures { AreCounts ⟦<AbortCause as PartialEq>⟧.eq result [] }
    {
        RunCounts {
            steps: 0,
            outside: 0,
            idle: 0,
            drained: 0,
            under_way: [0; 256],
            places: IndexMap::new(alloc),
            causes: IndexMap::new(alloc),
            lengths: IndexMap::new(alloc),
            reads: IndexMap::new(alloc),
            writes: IndexMap::new(alloc),
        }
    }

    /// Counts one more step: what were the counts of some steps are those of these with one more. Where there is no
    /// memory for a row they stay the counts that they were.
    pub fn note(&mut self, step: Step) -> Result<(), AllocError>
        ensures ok { OnOk result ((steps : List Step) → length steps + 1 < 2 ^ 32
            → AreCounts ⟦<AbortCause as PartialEq>⟧.eq self.old steps
            → AreCounts ⟦<AbortCause as PartialEq>⟧.eq self.new (step ∷ steps)) }
        ensures err { OnErr result ((steps : List Step)
            → AreCounts ⟦<AbortCause as PartialEq>⟧.eq self.old steps
            → AreCounts ⟦<AbortCause as PartialEq>⟧.eq self.new steps) }
    {
        self.make_room()?;
        let Step {
            core,
            place,
            outcome,
            cause,
            reads,
            writes,
        } = step;
        let before = self.under_way[core as usize];
        self.steps = plus(self.steps, 1);
        self.outside = count_if(self.outside, is_outside(outcome));
        self.idle = count_if(self.idle, is_idle(outcome));
        self.drained = count_if(self.drained, is_drained(outcome));
        count_place(&mut self.places, place, outcome, before);
        count_cause(&mut self.causes, place, outcome, cause);
        count_size(&mut self.lengths, place, outcome, plus(before, 1));
        count_size(&mut self.reads, place, outcome, u64::from(reads));
        count_size(&mut self.writes, place, outcome, u64::from(writes));
        self.under_way[core as usize] = open_after(outcome, before);
        Ok(())
    }

    /// Sorts the rows by their keys, which changes no count.
    pub fn sort(&mut self) -> Result<(), AllocError>
        ensures { (steps : List Step) → AreCounts ⟦<AbortCause as PartialEq>⟧.eq self.old steps
            → AreCounts ⟦<AbortCause as PartialEq>⟧.eq self.new steps }
    {
        self.places.sort_keys()?;
        self.causes.sort_keys()?;
        self.lengths.sort_keys()?;
        self.reads.sort_keys()?;
        self.writes.sort_keys()
    }

    // Makes room for a row more of each kind.
    fn make_room(&mut self) -> Result<(), AllocError>
        ensures same { SameCounts self.old self.new }
        ensures ok { OnOk result (HasRoom self.new) }
    {
        self.places.reserve(1)?;
        self.causes.reserve(1)?;
        self.lengths.reserve(1)?;
        self.reads.reserve(1)?;
        self.writes.reserve(1)
    }
}

// Whether a step was outside of transactions.
fn is_outside(outcome: Outcome) -> bool
    ensures { result ≡ is_outside outcome }
{
    matches!(
        outcome,
        Outcome::Plain | Outcome::Loaded | Outcome::Stopped(_)
    )
}

// Whether a step was one of a core that had stopped.
fn is_idle(outcome: Outcome) -> bool
    ensures { result ≡ is_idle outcome }
{
    matches!(outcome, Outcome::Idle)
}

// How many steps a core has made in its open transaction after a step.
fn open_after(outcome: Outcome, before: u64) -> u64
    ensures { before + 1 < 2 ^ 64 → result ≡ open_after outcome before }
{
    match outcome {
        Outcome::Begun => 1,
        Outcome::Inside => plus(before, 1),
        Outcome::Drained => before,
        _ => 0,
    }
}

// Counts what a step made of a transaction, at its place.
fn count_place(places: &mut IndexMap<u32, PlaceCounts>, place: u32, outcome: Outcome, before: u64)
    requires { 0 < spare places.old }
    ensures { (q : ℕ) → Fits (counts_at places.old q) before
        → counts_at places.new q
        ≡ (if nat_eq place q then after_step outcome before (counts_at places.old q) else counts_at places.old q) }
{
    match outcome {
        Outcome::Begun | Outcome::Committed | Outcome::Aborted(_) | Outcome::AbortedBy(_, _) => {
            let counts = places.get(&place).copied().unwrap_or(NO_COUNTS);
            match places.insert(place, counts.after(outcome, before)) {
                Ok(_) => {}
                Err(_) => unreachable!(),
            }
        }
        _ => {}
    }
}

// Counts an abort, by its cause: one from outside by what it came from.
fn count_cause(causes: &mut Tally<PlaceCause>, place: u32, outcome: Outcome, cause: AbortCause)
    requires { 0 < spare causes.old }
    ensures { let same = ⟦<AbortCause as PartialEq>⟧.eq in
        (q : PlaceCause) → total_of (same_cause same) causes.old q + 1 < 2 ^ 64
        → total_of (same_cause same) causes.new q
        ≡ counted (is_aborted outcome && (nat_eq place q.place && same (cause_counted outcome cause) q.cause))
        (total_of (same_cause same) causes.old q) }
{
    match outcome {
        Outcome::Aborted(_) => add_one(causes, PlaceCause { place, cause }),
        Outcome::AbortedBy(interference, _) => {
            let cause = AbortCause::from_outside(interference);
            add_one(causes, PlaceCause { place, cause });
        }
        _ => {}
    }
}

// Counts a commit, by a size of its transaction.
fn count_size(sizes: &mut Tally<PlaceSize>, place: u32, outcome: Outcome, size: u64)
    requires { 0 < spare sizes.old }
    ensures { (q : PlaceSize) → total_of same_size sizes.old q + 1 < 2 ^ 64
        → total_of same_size sizes.new q
        ≡ counted (is_committed outcome && (nat_eq place q.place && nat_eq size q.size))
        (total_of same_size sizes.old q) }
{
    if outcome == Outcome::Committed {
        add_one(sizes, PlaceSize { place, size });
    }
}
