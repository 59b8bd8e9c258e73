//! A run whose steps are counted, each behind its making.
//!
//! [`Counting`] asks the machine before a step what is gone behind it, of one preview; makes the step, counts first
//! whom it hit, and then the step itself. A step that is refused is not counted. Of stores that are pending nothing is
//! asked where none may be. [`Counting::run_course`] asks for the schedule's cores before the first step;
//! [`Counting::run_history`] makes those of a board. [`Counting::sort`] is to come before a report.

ghost use Rattle.std.specs.Prelude.{◌≡◌, ◌<◌, [], IfErr, IfOk, List, length};
ghost use Rattle.elide_setup.specs.Recorded.{IsRecorded};
ghost use Rattle.elide_setup.specs.Runs.{AreMachineSteps};
ghost use Rattle.elide_setup.specs.Schedules.{AreOf, picks_made, picks_told, schedule_made};
ghost use Rattle.elide_setup.specs.Walks.{Leads};
ghost use Rattle.tm_model.specs.declared.outcome.Outcome.{Outcome};
ghost use Rattle.tm_model.specs.declared.outcome.Pick.{Pick};
ghost use Rattle.tm_model.specs.Runs.{picks_of};
ghost use Rattle.tm_stats.specs.Counts.{AreCounts};
ghost use Rattle.tm_stats.specs.declared.step.Step.{Step};
ghost use Rattle.elide_setup.specs.Refused.{IsAnyWant};
ghost use Rattle.elide_stats.specs.Counted.{GoOn};
ghost use Rattle.elide_stats.specs.Refused.{IsUncounted, IsUncountedStep};

use crate::asked::Asked;
use crate::hits::{CoreBytes, Hits};
use elide_device::Progress;
use elide_program::Paths;
use elide_setup::{Course, Fault, Refusal, StepMaker, walk_history};
use std::alloc::{AllocError, Global};
use tm_core::{Buffering, Machine, RunFault};
use tm_hist::Board;
use tm_model::{Outcome, Pick};
use tm_stats::{AbortCause, ByteStep, Conflicts, RunCounts};
use tm_stores::{Change, MadeStore, Stores};

/// A machine, with the counts of the steps that it made.
#[derive(Drop)]
pub struct Counting {
    machine: Machine,
    counts: RunCounts,
    conflicts: Conflicts,
    bytes: CoreBytes,
    // Of the step that is asked for.
    hits: Hits,
    // Which instructions made what is pending.
    stores: Stores,
}

/// A schedule, and where it is written, where there is a path.
#[derive(Clone, Copy)]
pub struct Recorded<'a> {
    pub course: &'a Course,
    pub path: Option<&'a str>,
}

impl StepMaker for Counting {
    ghost takes = { λ before steps after. AreMachineSteps before.machine steps after.machine
        × GoOn ⟦<AbortCause as PartialEq>⟧.eq before steps after };

    ghost refuses = { λ before pick why. IsUncountedStep before.machine pick why };

    // Makes a step, and counts it with the transactions that it hits.
    fn make_step(&mut self, pick: Pick) -> Result<Outcome, Refusal> {
        let core = pick.core;
        // Before the step: behind it the transactions are gone that it ends or hits.
        let Ok(preview) = self.machine.preview(core) else {
            return Err(Refusal::Fault(Fault::Run(RunFault::NoSuchCore)));
        };
        let asked = Asked::before(&self.machine, core, preview.reason);
        self.hits.ask(&self.machine, &preview);
        let pends = ask_stores(&self.machine, core, &self.stores, &mut self.hits);
        let outcome = self.machine.make_step(pick)?;
        count_hits(
            &mut self.conflicts,
            &mut self.bytes,
            core,
            &self.hits,
            self.hits.step(outcome, pends),
        )?;
        let store = MadeStore {
            step: self.counts.steps.saturating_add(1),
            eip: preview.eip,
        };
        keep_stores(&mut self.stores, core, outcome, pends, store);
        match self.counts.note(asked.step(core, outcome)) {
            Ok(()) => Ok(outcome),
            Err(_) => Err(no_memory()),
        }
    }
}

impl Counting {
    /// Before the first step of a machine.
    pub fn new(alloc: Global, machine: Machine) -> Result<Counting, Refusal>
        ensures machine { IfOk result (λ counting. counting.machine ≡ machine) }
        ensures counts { IfOk result (λ counting. AreCounts ⟦<AbortCause as PartialEq>⟧.eq counting.counts []) }
        ensures none { IfErr result IsAnyWant }
    {
        let Ok(bytes) = CoreBytes::new(alloc, machine.cores()) else {
            return Err(no_memory());
        };
        let most = u32::from(machine.stores());
        let Ok(stores) = Stores::new(alloc, machine.cores(), most) else {
            return Err(no_memory());
        };
        Ok(Counting {
            machine,
            counts: RunCounts::new(alloc),
            conflicts: Conflicts::new(alloc),
            bytes,
            hits: Hits::none(),
            stores,
        })
    }

    /// Runs a schedule, counts its steps, and writes the schedule that came about where there is a path.
    pub fn run_course<P: Paths, G: Progress>(
        &mut self,
        alloc: Global,
        recorded: Recorded<'_>,
        paths: &mut P,
        progress: &mut G,
    ) -> Result<(), Refusal>
        ensures refused { IfErr result
            (IsUncounted recorded.entry.course.now (length self.old.machine.views) recorded.entry.path) }
        ensures ran { IfOk result (λ _. (made : List (Pick × Outcome))
            × AreOf recorded.entry.course.now (picks_made made)
            × Leads AreMachineSteps self.old.machine made self.new.machine
            × GoOn ⟦<AbortCause as PartialEq>⟧.eq self.old made self.new
            × IsRecorded (P.content paths.new) recorded.entry.path
            (schedule_made recorded.entry.course.now (picks_told made))) }
    {
        let Recorded { course, path } = recorded;
        let cores = self.machine.cores();
        course.check_cores(cores)?;
        course.walk_recorded(alloc, cores, path, self, paths, progress)
    }

    /// Makes the steps of a board's history, on a machine with the cores of its program: only memory can be wanting.
    pub fn run_history<G: Progress>(
        &mut self,
        board: &Board,
        progress: &mut G,
    ) -> Result<(), Refusal>
        requires { length self.old.machine.views ≡ length board.now.program.entries }
        ensures refused { IfErr result IsAnyWant }
        ensures ran { IfOk result (λ _. (made : List (Pick × Outcome)) × (picks_made made ≡ picks_of board.now.history)
            × GoOn ⟦<AbortCause as PartialEq>⟧.eq self.old made self.new) }
    {
        walk_history(board, self, progress)
    }

    /// Brings the counts into the order in which they are told.
    pub fn sort(&mut self) -> Result<(), AllocError>
        ensures machine { self.new.machine ≡ self.old.machine }
        ensures counts { (steps : List Step) → AreCounts ⟦<AbortCause as PartialEq>⟧.eq self.old.counts steps →
            AreCounts ⟦<AbortCause as PartialEq>⟧.eq self.new.counts steps }
    {
        self.counts.sort()?;
        self.conflicts.sort()
    }

    /// The counts of the steps.
    pub fn counts(&self) -> &RunCounts
        ensures { result.now ≡ self.now.counts }
    {
        &self.counts
    }

    /// The counts of the transactions that were hit.
    pub fn conflicts(&self) -> &Conflicts
        ensures { result.now ≡ self.now.conflicts }
    {
        &self.conflicts
    }
}

// Asks a machine before a step of this core whom a drain in its place would hit, and whether the step's own store is
// pending behind it. Where no store may be pending, neither is asked.
fn ask_stores(machine: &Machine, core: u8, stores: &Stores, hits: &mut Hits) -> bool
    requires { core < length machine.now.views }
{
    if !stores.may_pend() {
        return false;
    }
    hits.ask_drain(machine, core, stores.oldest(core));
    matches!(machine.ahead(core), Ok(Buffering::Pends))
}

// Keeps which steps made the stores of this core that are pending behind its step, where any may be.
fn keep_stores(stores: &mut Stores, core: u8, outcome: Outcome, pends: bool, store: MadeStore) {
    if stores.may_pend() {
        stores.record(core, Change::by(outcome, pends, store));
    }
}

// Counts the transactions of other cores that a step of a core has hit.
fn count_hits(
    conflicts: &mut Conflicts,
    bytes: &mut CoreBytes,
    core: u8,
    hits: &Hits,
    step: ByteStep,
) -> Result<(), Refusal>
    ensures { IfErr result IsAnyWant }
{
    for (victim, conflict) in hits.conflicts_by(step.outcome) {
        let mut conflict = *conflict;
        conflict.is_apart = bytes.is_apart(core, step, *victim, conflict.line);
        if conflicts.note(conflict).is_err() {
            return Err(no_memory());
        }
    }
    // Behind the questions above, which are of the bytes before this step.
    match bytes.record(core, step) {
        Ok(()) => Ok(()),
        Err(_) => Err(no_memory()),
    }
}

/// Want of memory for the counts of a run.
pub fn no_memory() -> Refusal
    ensures { result ≡ Refusal.Fault (Fault.Run RunFault.NoMemory) }
{
    Refusal::Fault(Fault::Run(RunFault::NoMemory))
}
