//! A run that is watched: a [`Watch`] is told of each step, in their order, with what the machine said before it.
//!
//! [`Watch::reason`] and [`Watch::begun`] are asked before [`Watch::note`], which may end the transaction that they
//! speak of. No machine is asked and no step made here: `asked` and the caller do that. Memory is taken where a watch
//! is made, for the steps that made the stores that are pending, and nowhere else; where none may be pending, none is.

ghost use Rattle.std.specs.Prelude.{◌≡◌, ℕ, ◌<◌, ◌≤◌, ◌^◌, ◌-◌, ◌∷◌, [], IfOk, List, None, length, slice_index_or};
ghost use Rattle.tm_stores.specs.Queues.{queue_at};
ghost use Rattle.tm_stores.specs.Stores.{change_by};
ghost use Rattle.tm_why.specs.Watched.{drained_store, hit_made, made_store, outside};
ghost use Rattle.tm_why.specs.Rows.{row_after, row_if_other};

use crate::asked::{Asked, MOST_CORES};
use crate::reason::Reason;
use crate::row::{Watched, hit_made, row_after, take_own};
use std::alloc::{AllocError, Global};
use tm_core::Limits;
use tm_model::Outcome;
use tm_stores::{Change, MadeStore, Stores};

/// Of each core the step at which its open transaction began, and the hit that condemned it: a row of fixed length; and
/// which steps made its stores that are pending. It is told of each step of a run, which are numbered from 1.
#[derive(Drop)]
pub struct Watch {
    made: u64,
    rows: [Watched; MOST_CORES],
    stores: Stores,
}

impl Watch {
    ghost use Rattle.tm_why.specs.Watched.{IsWatch, Told, begun_in, reason_in};

    /// Before the first step of a machine with these limits.
    pub fn new(alloc: Global, limits: Limits) -> Result<Watch, AllocError>
        ensures none { IfOk result (λ watch. IsWatch watch []) }
        ensures most { IfOk result (λ watch. watch.stores.most ≡ limits.stores) }
    {
        let outside = Watched {
            begun: None,
            hit: None,
        };
        let stores = Stores::new(alloc, MOST_CORES as u8, limits.stores)?;
        Ok(Watch {
            made: 0,
            rows: [outside; MOST_CORES],
            stores,
        })
    }

    /// Why the step that was asked of is an abort, where it is one, if no event comes in its place: to be asked before
    /// [`Watch::note`].
    pub fn reason(&self, asked: &Asked) -> Option<Reason>
        ensures { (steps : List Told) → IsWatch self.now steps →
            result ≡ reason_in self.now.stores.most asked.now steps }
    {
        let cause = asked.reason?;
        Some(Reason {
            cause,
            eip: asked.eip,
            transaction: self.rows[asked.core as usize],
        })
    }

    /// At which step the open transaction of the core that was asked of began, if it has one: to be asked before
    /// [`Watch::note`], as of a transaction that is then aborted from outside.
    pub fn begun(&self, asked: &Asked) -> Option<u64>
        ensures { (steps : List Told) → IsWatch self.now steps → result ≡ begun_in asked.now.core steps }
    {
        self.rows[asked.core as usize].begun
    }

    /// Takes in a step: what the machine said of it, and what came of it, also where an event came in its place. Takes
    /// no memory.
    pub fn note(&mut self, asked: &Asked, outcome: Outcome)
        ensures most { self.new.stores.most ≡ self.old.stores.most }
        ensures watch { (steps : List Told) → length steps < 2 ^ 64 - 1 → IsWatch self.old steps →
            IsWatch self.new ((asked.now, outcome) ∷ steps) }
    {
        if self.stores.may_pend() {
            self.note_pending(asked, outcome)
        } else {
            self.note_direct(asked, outcome)
        }
    }

    // As [`Watch::note`], where stores may be pending.
    #[inline(never)]
    fn note_pending(&mut self, asked: &Asked, outcome: Outcome)
        ensures most { self.new.stores.most ≡ self.old.stores.most }
        ensures watch { (steps : List Told) → length steps < 2 ^ 64 - 1 → IsWatch self.old steps →
            IsWatch self.new ((asked.now, outcome) ∷ steps) }
    {
        let number = self.made.saturating_add(1);
        self.made = number;
        let by = drained_store(&self.stores, asked, outcome);
        take_in(&mut self.rows, asked, outcome, number, by);
        let change = change_made(asked, outcome, number);
        self.stores.record(asked.core, change);
    }

    // As [`Watch::note`], where none may be: there is no queue that a step could change.
    #[inline(always)]
    fn note_direct(&mut self, asked: &Asked, outcome: Outcome)
        requires none { self.old.stores.most ≡ 0 }
        ensures most { self.new.stores.most ≡ self.old.stores.most }
        ensures watch { (steps : List Told) → length steps < 2 ^ 64 - 1 → IsWatch self.old steps →
            IsWatch self.new ((asked.now, outcome) ∷ steps) }
    {
        let made = self.made.saturating_add(1);
        self.made = made;
        take_in(&mut self.rows, asked, outcome, made, None);
    }
}

// Of a drain, the store that reached memory: the oldest of its core.
fn drained_store(stores: &Stores, asked: &Asked, outcome: Outcome) -> Option<MadeStore>
    ensures { result ≡ drained_store (asked.now, outcome) (queue_at stores.now asked.now.core) }
{
    match outcome {
        Outcome::Drained => stores.oldest(asked.core),
        Outcome::Plain
        | Outcome::Loaded
        | Outcome::Stopped(_)
        | Outcome::Idle
        | Outcome::Begun
        | Outcome::Inside
        | Outcome::Committed
        | Outcome::Aborted(_)
        | Outcome::AbortedBy(_, _) => None,
    }
}

// What the step of this number does to the stores of its core that are pending.
fn change_made(asked: &Asked, outcome: Outcome, number: u64) -> Change
    ensures { result ≡ change_by outcome asked.now.pends (made_store number asked.now) }
{
    let store = MadeStore {
        step: number,
        eip: asked.eip,
    };
    Change::by(outcome, asked.pends, store)
}

// Each row behind the step of this number: only the core's own and those of the cores that are hit change.
fn take_in(
    rows: &mut [Watched; MOST_CORES],
    asked: &Asked,
    outcome: Outcome,
    number: u64,
    by: Option<MadeStore>,
)
    ensures { (core : ℕ) → core < 64 → slice_index_or rows.new core outside
        ≡ row_after core asked.now outcome number by (slice_index_or rows.old core outside) }
{
    let own = asked.core as usize;
    take_hits(rows, asked, outcome, number, by);
    take_own(&mut rows[own], outcome, number);
}

// Below which number each core is that the step hit, or the drain in its place.
fn hits_below(asked: &Asked, outcome: Outcome) -> u8
    ensures most { result ≤ 64 }
    ensures none { (core : ℕ) → result ≤ core → hit_made (asked.now, outcome) core ≡ None }
{
    match outcome {
        Outcome::Drained => asked.drain_below,
        Outcome::Plain
        | Outcome::Loaded
        | Outcome::Stopped(_)
        | Outcome::Idle
        | Outcome::Begun
        | Outcome::Inside
        | Outcome::Committed
        | Outcome::Aborted(_)
        | Outcome::AbortedBy(_, _) => asked.below,
    }
}

// The rows of the cores that are hit.
fn take_hits(
    rows: &mut [Watched; MOST_CORES],
    asked: &Asked,
    outcome: Outcome,
    number: u64,
    by: Option<MadeStore>,
)
    ensures { (core : ℕ) → core < 64 → slice_index_or rows.new core outside
        ≡ row_if_other core asked.now outcome number by (slice_index_or rows.old core outside) }
{
    let own = asked.core as usize;
    for core in 0..hits_below(asked, outcome) as usize {
        if core != own && hit_made(asked, outcome, core).is_some() {
            rows[core] = row_after(rows[core], core, asked, outcome, number, by);
        }
    }
}
