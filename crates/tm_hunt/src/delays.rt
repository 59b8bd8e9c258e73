//! Which loads the stores of a failing run are late past: [`find_delays`].
//!
//! The steps that decide are made once more on a machine, for one core after another. A step that leaves its store
//! pending is kept, with how many stores are older and how many have drained before it. A step that loads a byte from
//! memory is the one that each store kept is late past, where no more have drained since than were older, and then
//! none is kept any longer. Which of them makes the run fail is not asked: `shortening` has let each drain come as
//! early as it may.

ghost use Rattle.std.specs.Prelude.{◌≡◌, ◌∷◌, ◌≤◌, ◌+◌, [], All, IfErr, IfOk, IfSome, IsTrue, OnOk, length, true};
ghost use Rattle.tm_core.specs.Theorem.{SameMachine};
ghost use Rattle.tm_hunt.specs.Attempts.{IsRefusal};
ghost use Rattle.tm_hunt.specs.Cycle.{IsMachineOf, Makes};
ghost use Rattle.tm_hunt.specs.Deciding.{deciding};
ghost use Rattle.tm_hunt.specs.Delays.{AreTold, HasByteBeside, IsDelayed, IsGlance, IsLoading, IsMadeAt, IsStored};
ghost use Rattle.tm_hunt.specs.Delays.{drains_of};

use crate::attempt::HuntFault;
use crate::failure::Failure;
use crate::pending::{has_byte_beside, pending_count};
use crate::trial::Trial;
use crate::walker::{machine_of, makes};
use std::alloc::{AllocError, Global};
use tm_core::Machine;
use tm_model::{Event, Pick};

/// The most that are told.
const MOST: usize = 4;

/// A store that its core loaded past: it was pending when the core loaded a byte from memory.
#[derive(Clone, Copy, PartialEq, Eq, Debug)]
pub struct Delayed {
    /// The core of both.
    pub core: u8,
    /// The step that made the store, 0 for the first of the run.
    pub stored: u64,
    /// Where its instruction stands.
    pub store_eip: u32,
    /// The first step behind it that loaded a byte from memory.
    pub loaded: u64,
    /// Where its instruction stands.
    pub load_eip: u32,
}

/// What is kept of a step.
#[derive(Clone, Copy)]
pub struct Glance {
    /// Where its instruction stands.
    pub eip: u32,
    /// How many stores of its core are older than the one that it leaves pending, if it leaves one.
    pub older: Option<usize>,
    /// Whether it loads a byte from memory.
    pub loads: bool,
}

/// A step of a core.
#[derive(Clone, Copy)]
pub struct Place {
    /// The step, 0 for the first of the run.
    pub step: usize,
    /// Where its instruction stands.
    pub eip: u32,
    /// How many stores of its core have drained before it.
    pub drained: usize,
}

/// A step of a core that leaves its store pending.
#[derive(Clone, Copy)]
pub struct Stored {
    /// The step.
    pub place: Place,
    /// How many stores of the core are older.
    pub older: usize,
}

/// The steps of a schedule, of which those of one core are looked at.
#[derive(Clone, Copy)]
pub struct Course<'a> {
    /// What is tried.
    pub trial: Trial<'a>,
    /// The schedule.
    pub picks: &'a [Pick],
    /// The core.
    pub core: u8,
}

/// The loads that stores of a failing run are late past, of the steps that decide: of each store the first one, of one
/// core after another, and no more than four. With room for no store there are none.
pub fn find_delays(
    alloc: Global,
    trial: &Trial<'_>,
    failure: &Failure,
) -> Result<Vec<Delayed>, HuntFault>
    ensures delayed { IfOk result (λ found. All (IsDelayed trial.now (deciding failure.now)) found.items) }
    ensures few { IfOk result (λ found. length found.items ≤ 4) }
    ensures none { trial.now.limits.stores ≡ 0 → IfOk result (λ found. found.items ≡ []) }
    ensures err { IfErr result (IsRefusal trial.now) }
{
    if trial.limits.stores == 0 {
        return Ok(Vec::new(alloc));
    }
    let mut machine = machine_of(alloc, trial)?;
    let found = find_on(alloc, trial, &mut machine, failure.deciding())?;
    Ok(found)
}

// Those of the steps of a list.
fn find_on(
    alloc: Global,
    trial: &Trial<'_>,
    machine: &mut Machine,
    picks: &[Pick],
) -> Result<Vec<Delayed>, AllocError>
    requires { IsMachineOf trial.now machine.old }
    ensures { IfOk result (λ found. AreTold trial.now picks.now found.items) }
{
    let mut found = Vec::new(alloc);
    'cores: for core in 0..trial.program.cores() {
        let course = Course {
            trial: *trial,
            picks,
            core,
        };
        course.find(alloc, machine, &mut found)?;
    }
    Ok(found)
}

impl Course<'_> {
    // Tells those of its core behind those of others.
    fn find(
        self,
        alloc: Global,
        machine: &mut Machine,
        found: &mut Vec<Delayed>,
    ) -> Result<(), AllocError>
        requires machine { IsMachineOf self.trial machine.old }
        requires found { AreTold self.trial self.picks.now found.old.items }
        ensures machine { IsMachineOf self.entry.trial machine.new }
        ensures found { OnOk result (AreTold self.entry.trial self.entry.picks.now found.new.items) }
    {
        machine.reopen(self.trial.program);
        let mut waiting = Vec::new(alloc);
        let mut drained = 0;
        'steps: for step in 0..self.picks.len() {
            let pick = self.picks[step];
            let Some(seen) = make(machine, pick) else {
                return Ok(());
            };
            let place = Place {
                step,
                eip: seen.eip,
                drained,
            };
            self.look(pick, seen, place, &mut waiting, found)?;
            drained += self.drains(pick);
        }
        Ok(())
    }

    // Looks at a step that was made.
    fn look(
        self,
        pick: Pick,
        seen: Glance,
        place: Place,
        waiting: &mut Vec<Stored>,
        found: &mut Vec<Delayed>,
    ) -> Result<(), AllocError>
        requires made { IsMadeAt self pick seen place }
        requires waiting { All (IsStored self) waiting.old.items }
        requires found { AreTold self.trial self.picks.now found.old.items }
        ensures waiting { OnOk result (All (IsStored self.entry) waiting.new.items) }
        ensures found { OnOk result (AreTold self.entry.trial self.entry.picks.now found.new.items) }
    {
        if pick.core != self.core {
            return Ok(());
        }
        self.pass(seen.loads, place, waiting, found)?;
        match seen.older {
            Some(older) => {
                waiting.push(Stored { place, older })?;
                Ok(())
            }
            None => Ok(()),
        }
    }

    // Passes a step: where it loads from memory it is told of each store that waits, and none waits any longer.
    fn pass(
        self,
        loads: bool,
        place: Place,
        waiting: &mut Vec<Stored>,
        found: &mut Vec<Delayed>,
    ) -> Result<(), AllocError>
        requires load { loads ≡ true → IsLoading self place }
        requires waiting { All (IsStored self) waiting.old.items }
        requires found { AreTold self.trial self.picks.now found.old.items }
        ensures waiting { OnOk result (All (IsStored self.entry) waiting.new.items) }
        ensures found { OnOk result (AreTold self.entry.trial self.entry.picks.now found.new.items) }
    {
        if !loads {
            return Ok(());
        }
        self.tell_all(waiting.as_slice(), place, found)?;
        waiting.clear();
        Ok(())
    }

    // Tells of each of these stores that is late past this load.
    fn tell_all(
        self,
        waiting: &[Stored],
        load: Place,
        found: &mut Vec<Delayed>,
    ) -> Result<(), AllocError>
        requires waiting { All (IsStored self) waiting.now }
        requires load { IsLoading self load }
        requires found { AreTold self.trial self.picks.now found.old.items }
        ensures { OnOk result (AreTold self.entry.trial self.entry.picks.now found.new.items) }
    {
        for stored in waiting {
            self.tell(*stored, load, found)?;
        }
        Ok(())
    }

    // Tells of a store, where it is late past this load, and there are not enough.
    fn tell(self, stored: Stored, load: Place, found: &mut Vec<Delayed>) -> Result<(), AllocError>
        requires stored { IsStored self stored }
        requires load { IsLoading self load }
        requires found { AreTold self.trial self.picks.now found.old.items }
        ensures { OnOk result (AreTold self.entry.trial self.entry.picks.now found.new.items) }
    {
        if found.as_slice().len() >= MOST {
            return Ok(());
        }
        match self.late(stored, load) {
            Some(delayed) => {
                found.push(delayed)?;
                Ok(())
            }
            None => Ok(()),
        }
    }

    // What is told of a store that is late past this load; nothing where it is not.
    fn late(self, stored: Stored, load: Place) -> Option<Delayed>
        requires stored { IsStored self stored }
        requires load { IsLoading self load }
        ensures { IfSome result (IsDelayed self.entry.trial self.entry.picks.now) }
    {
        let store = stored.place;
        if store.step >= load.step || load.drained.saturating_sub(store.drained) > stored.older {
            return None;
        }
        Some(Delayed {
            core: self.core,
            stored: store.step as u64,
            store_eip: store.eip,
            loaded: load.step as u64,
            load_eip: load.eip,
        })
    }

    // How many stores of the core a step drains: one or none.
    fn drains(self, pick: Pick) -> usize
        ensures drained { result ≡ drains_of self.entry.core (pick ∷ []) }
        ensures few { result ≤ 1 }
    {
        if pick.core == self.core && pick.event == Some(Event::Drain) {
            1
        } else {
            0
        }
    }
}

// Makes a step, and says what is kept of it; nothing where it does not come to be as its pick says.
fn make(machine: &mut Machine, pick: Pick) -> Option<Glance>
    ensures same { SameMachine machine.old machine.new }
    ensures made { IfSome result (λ seen. Makes machine.old machine.new (pick ∷ [])) }
    ensures seen { IfSome result (IsGlance machine.old machine.new pick) }
{
    let Ok(preview) = machine.preview(pick.core) else {
        return None;
    };
    let loads = has_byte_beside(machine, pick.core, preview.reach.load);
    let before = pending_count(machine, pick.core);
    if !makes(machine, pick) {
        return None;
    }
    let behind = pending_count(machine, pick.core);
    match pick.event {
        None => Some(Glance {
            eip: preview.eip,
            older: older_of(before, behind),
            loads,
        }),
        Some(_event) => Some(Glance {
            eip: preview.eip,
            older: None,
            loads: false,
        }),
    }
}

// How many stores are older than one that a step leaves pending, before and behind which so many are pending; nothing
// where it leaves none.
fn older_of(before: usize, behind: usize) -> Option<usize>
    ensures { IfSome result (λ older. (before ≡ older) × (behind ≡ older + 1)) }
{
    if behind > before && behind - before == 1 {
        Some(before)
    } else {
        None
    }
}
