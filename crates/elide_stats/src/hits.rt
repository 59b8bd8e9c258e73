//! The transactions that steps hit, and the bytes on which they meet.
//!
//! [`Hits::ask`] comes before the step, as a transaction that is hit is condemned behind it; whether the step was made
//! at all, or a store that had been pending reached memory in its place, is known by its outcome. The room for hits is
//! made once a run. [`CoreBytes`] is told each step, and asked before that whether two cores meet on a byte. Which
//! steps hit is the machine's to say; counts are `tm_stats`'s.

ghost use Rattle.std.specs.Prelude.{◌≡◌, ◌<◌, length};
ghost use Rattle.tm_core.specs.Previewed.{IsPreview};
ghost use Rattle.elide_stats.specs.Hits.{hits_made, reach_made};

use crate::asked::conflict_of;
use arrayvec::ArrayVec;
use ia_addr::Access;
use std::alloc::{AllocError, Global};
use tm_core::{Machine, Preview};
use tm_model::{Outcome, Reach};
use tm_stats::{ByteStep, Conflict, OpenBytes};
use tm_stores::MadeStore;

/// The most cores of a machine.
const MOST_CORES: usize = 64;

/// The transactions of other cores that the next step of a core hits, and the bytes that it reaches.
#[derive(Drop)]
pub struct Hits {
    // Each with the core whose transaction it is.
    conflicts: ArrayVec<(u8, Conflict), MOST_CORES>,
    reach: Reach,
    // Those of a drain in the place of the step.
    drains: ArrayVec<(u8, Conflict), MOST_CORES>,
    drained: Reach,
}

// No bytes.
const NOTHING: Reach = Reach {
    load: None,
    store: None,
};

impl Hits {
    /// Before the first step is asked for.
    pub fn none() -> Hits {
        Hits {
            conflicts: ArrayVec::new(),
            reach: NOTHING,
            drains: ArrayVec::new(),
            drained: NOTHING,
        }
    }

    /// Asks a machine before the previewed step, in the place of the step before: of the hits where it may hit anybody.
    pub fn ask(&mut self, machine: &Machine, preview: &Preview)
        requires { IsPreview machine.now preview.now }
    {
        self.conflicts.clear();
        self.reach = preview.reach;
        if !machine.may_hit(preview) {
            return;
        }
        for victim in 0..machine.cores() {
            if let Some(hit) = machine.hit_by(preview, victim).unwrap() {
                let conflict = conflict_of(machine, preview.eip, victim, hit.line, hit.kind);
                // There is room for one of each core.
                let _ = self.conflicts.try_push((victim, conflict));
            }
        }
    }

    /// Asks a machine before the same step for the hits of a drain in its place: of the oldest pending store of the
    /// core, where there is one, which this one is.
    pub fn ask_drain(&mut self, machine: &Machine, core: u8, by: Option<MadeStore>)
        requires { core < length machine.now.views }
    {
        self.drains.clear();
        self.drained = NOTHING;
        let Some(by) = by else {
            return;
        };
        self.drained = Reach {
            load: None,
            store: oldest_of(machine, core),
        };
        for victim in 0..machine.cores() {
            if let Some(hit) = machine.hit_by_drain(core, victim).unwrap() {
                let conflict = conflict_of(machine, by.eip, victim, hit.line, hit.kind);
                let _ = self.drains.try_push((victim, conflict));
            }
        }
    }

    /// Each hit, with the core whose transaction it is, once the outcome is known: a step in whose place an abort from
    /// outside came was not made, and hits nobody; one in whose place a store reached memory hits whom this hits.
    pub fn conflicts_by(&self, outcome: Outcome) -> &[(u8, Conflict)]
        ensures { result.now ≡ hits_made outcome self.now.conflicts.items self.now.drains.items }
    {
        match outcome {
            Outcome::AbortedBy(_, _) => &[],
            Outcome::Drained => self.drains.as_slice(),
            _ => self.conflicts.as_slice(),
        }
    }

    /// The step, once its outcome is known, and whether its store is pending now: others do not see that one yet.
    pub fn step(&self, outcome: Outcome, pends: bool) -> ByteStep
        ensures { result ≡ record { outcome = outcome; reach = reach_made outcome pends self.now.reach self.now.drained } }
    {
        ByteStep {
            outcome,
            reach: reach_made(outcome, pends, self.reach, self.drained),
        }
    }
}

// The bytes of the oldest pending store of a core.
fn oldest_of(machine: &Machine, core: u8) -> Option<Access>
    requires { core < length machine.now.views }
{
    let oldest = machine.pending(core).unwrap().first()?;
    Some(Access {
        addr: oldest.addr,
        width: oldest.width,
    })
}

// The bytes of a step that others see.
fn reach_made(outcome: Outcome, pends: bool, step: Reach, drain: Reach) -> Reach
    ensures { result ≡ reach_made outcome pends step drain }
{
    match outcome {
        Outcome::Drained => drain,
        _ if pends => Reach {
            load: step.load,
            store: None,
        },
        _ => step,
    }
}

/// The bytes of each core's open transaction.
#[derive(Drop)]
pub struct CoreBytes {
    cores: Vec<OpenBytes>,
}

impl CoreBytes {
    /// Those of so many cores, of which none has a transaction open.
    pub fn new(alloc: Global, count: u8) -> Result<CoreBytes, AllocError> {
        let mut cores = Vec::new(alloc);
        for _ in 0..count {
            cores.push(OpenBytes::new(alloc)).map_err(|_| AllocError)?;
        }
        Ok(CoreBytes { cores })
    }

    /// Whether the next step of a core hits the transaction of another on a line of whose bytes both touch none.
    pub fn is_apart(&self, core: u8, step: ByteStep, victim: u8, line: u32) -> bool {
        let own = self.cores.get(usize::from(core));
        let other = self.cores.get(usize::from(victim));
        match (own, other) {
            (Some(own), Some(other)) => own.is_apart(step, other, line),
            _ => false,
        }
    }

    /// Tells a step of a core. Where there is no memory the bytes stay as they were.
    pub fn record(&mut self, core: u8, step: ByteStep) -> Result<(), AllocError> {
        match self.cores.get_mut(usize::from(core)) {
            Some(own) => own.note(step),
            None => Ok(()),
        }
    }
}
