//! The second pass over a run: its steps, written as they are made, by [`write_steps`].
//!
//! Steps before the window are made with their deltas too, which tell what transactions keep, but without lines;
//! those behind it are made alone. Where the window begins, the machine is written (`opening`), before the first
//! step or behind the one before it. A run that has another length than in the first pass is refused. Reasons are a
//! pass of their own, in `elide_page`.

ghost use Rattle.std.specs.Prelude.{◌≡◌, ◌+◌, ◌<◌, ◌≤◌, ◌≢◌, ◌⊎◌, ℕ, [], IfErr, IfOk, List, OnErr, OnOk, codes};
ghost use Rattle.text_out.specs.Writing.{Wrote};
ghost use Rattle.tm_page.specs.Applied.{is_listed};
ghost use Rattle.tm_page.specs.Before.{IsBefore};
ghost use Rattle.tm_page.specs.Difference.{IsDifference};
ghost use Rattle.page_run.specs.Plain.{ArePlain, WrotePlain};
ghost use Rattle.page_run.specs.Refused.{IsNotTold};
ghost use Rattle.tm_model.specs.declared.outcome.Pick.{Pick};
ghost use Rattle.page_steps.specs.Steps.{step_text};
ghost use Rattle.elide_setup.specs.Refused.{IsAnyWant, IsNoCore, IsUntold, IsUnwritten};
ghost use Rattle.tm_core.specs.Theorem.{ShownMachine, view_at};
ghost use Rattle.page_telling.specs.Kept.{is_kept};
ghost use Rattle.page_telling.specs.Telling.{IsMade, IsPiece, Tells};
ghost use Rattle.page_telling.specs.Told.{AreLinesWritten, line_front, line_text};

use crate::kept::Kept;
use crate::opening::{Behind, put_opening};
use elide_device::Silent;
use elide_setup::{Fault, Refusal, StepMaker, new_machine};
use page_run::{Stretch, UsedLine, Window, put_plain};
use page_steps::write_step;
use std::alloc::{AllocError, Global};
use text_out::{Out, ToVec, WriteFault};
use tm_core::{Limits, Machine, RunFault};
use tm_model::{CoreState, Outcome, Pick};
use tm_page::{Before, PageDelta, delta_of};
use tm_why::Watch;

/// Writes the machine before the first step, with the lines of memory that were used, and the steps. Gives the device
/// back.
pub fn write_steps<O: Out + Drop>(
    stretch: Stretch<'_>,
    lines: &[UsedLine],
    out: O,
) -> Result<O, Refusal>
    ensures written { IfOk result (λ last. AreLinesWritten stretch.entry (O.device out) (O.device last)) }
    ensures refused { IfErr result (IsNotTold stretch.entry) }
{
    let alloc = stretch.alloc;
    let behind = behind_none(alloc, stretch.setup.limits)?;
    let machine = new_machine(alloc, stretch.setup)?;
    let cores = machine.cores();
    let lines = Vec::from_slice(alloc, lines)?;
    let mut telling = Telling {
        alloc,
        machine,
        behind,
        window: stretch.window,
        total: stretch.total,
        made: 0,
        lines,
        out,
    };
    telling.open_first()?;
    stretch
        .course
        .walk(alloc, cores, false, &mut telling, &mut Silent)?;
    let Telling { out, made, .. } = telling;
    check_made(made, stretch.total, stretch.window)?;
    put_end(out)
}

// What is known before the first step of a machine with these limits.
fn behind_none(alloc: Global, limits: Limits) -> Result<Behind, Refusal>
    ensures kept { IfOk result (λ behind. behind.kept.bytes.items ≡ []) }
    ensures refused { IfErr result IsAnyWant }
{
    let watch = Watch::new(alloc, limits)?;
    Ok(Behind {
        kept: Kept::new(alloc),
        watch,
    })
}

// That so many steps were made as the run has, those of the window among them. A schedule makes the steps again that it
// made as it was surveyed.
fn check_made(made: u64, total: u64, window: Window) -> Result<(), Refusal>
    ensures all { OnOk result (made ≡ total) }
    ensures reached { OnOk result (window.to ≤ made) }
    ensures others { OnErr result ((made ≢ total) ⊎ (made < window.to)) }
    ensures refused { IfErr result IsUnwritten }
{
    if made != total || made < window.to {
        return Err(Refusal::from(WriteFault::Write));
    }
    Ok(())
}

// The end of the list.
fn put_end<O: Out + Drop>(out: O) -> Result<O, Refusal>
    ensures text { IfOk result (λ last. Wrote (O.device out) (O.device last) (codes "]")) }
    ensures refused { IfErr result IsUnwritten }
{
    let mut out = out;
    put_plain(b"]", &mut out)?;
    Ok(out)
}

// A machine whose steps are written.
#[derive(Drop)]
struct Telling<O> {
    alloc: Global,
    machine: Machine,
    behind: Behind,
    window: Window,
    // How many steps its run has.
    total: u64,
    // How many were made.
    made: u64,
    // How the run uses memory.
    lines: Vec<UsedLine>,
    out: O,
}

impl<O: Out> StepMaker for Telling<O> {
    ghost takes = { λ before steps after. Tells
        (record {
          machine = before.machine;
          kept = before.behind.kept.bytes.items;
          window = before.window;
          made = before.made;
          device = O.device before.out;
        })
        steps
        (record {
          machine = after.machine;
          kept = after.behind.kept.bytes.items;
          window = after.window;
          made = after.made;
          device = O.device after.out;
        }) };

    ghost refuses = { λ telling pick why. IsNoCore telling.machine pick why ⊎ IsUntold why };

    fn make_step(&mut self, pick: Pick) -> Result<Outcome, Refusal> {
        let made = one_more(self.made, self.total)?;
        if self.made >= self.window.to {
            let outcome = self.machine.make_step(pick)?;
            self.made = made;
            return Ok(outcome);
        }
        let told = take_step(self.alloc, &mut self.machine, &mut self.behind, pick)?;
        let standing = Standing {
            alloc: self.alloc,
            window: self.window,
            made: self.made,
            machine: &self.machine,
            behind: &self.behind,
            lines: self.lines.as_slice(),
        };
        put_told(standing, &told, &mut self.out)?;
        self.made = made;
        Ok(told.outcome)
    }
}

// The number of steps behind one more, of so many in all.
fn one_more(made: u64, total: u64) -> Result<u64, Refusal>
    ensures next { IfOk result (λ next. next ≡ made + 1) }
    ensures none { OnErr result (total ≤ made) }
    ensures refused { IfErr result IsUnwritten }
{
    if made >= total {
        // A schedule makes no step that it did not make as it was surveyed.
        return Err(Refusal::from(WriteFault::Write));
    }
    Ok(made + 1)
}

impl<O: Out> Telling<O> {
    // Opens the page of a run whose first steps stand in it.
    fn open_first(&mut self) -> Result<(), Refusal>
        ensures machine { self.new.machine ≡ self.old.machine }
        ensures kept { self.new.behind.kept.bytes.items ≡ self.old.behind.kept.bytes.items }
        ensures window { self.new.window ≡ self.old.window }
        ensures made { self.new.made ≡ self.old.made }
        ensures text { OnOk result (WrotePlain (O.device self.old.out) (O.device self.new.out)) }
        ensures refused { IfErr result IsUntold }
    {
        if self.window.from > 0 {
            return Ok(());
        }
        put_opening(
            self.alloc,
            &self.machine,
            &self.behind,
            self.lines.as_slice(),
            &mut self.out,
        )
    }
}

// A step that was made.
#[derive(Drop)]
struct TakenStep {
    outcome: Outcome,
    // What its core did before it.
    before: CoreState,
    delta: PageDelta,
}

// Makes a step, with what it changes.
fn take_step(
    alloc: Global,
    machine: &mut Machine,
    behind: &mut Behind,
    pick: Pick,
) -> Result<TakenStep, Refusal>
    ensures made { IfOk result (λ told. IsMade machine.old behind.old.kept.bytes.items
        (record { pick = pick; outcome = told.outcome; before = told.before; delta = told.delta })
        machine.new behind.new.kept.bytes.items) }
    ensures refused { IfErr result (λ why. IsNoCore machine.old pick why ⊎ IsAnyWant why) }
{
    let state = state_of(machine, pick)?;
    let before = before_of(alloc, machine, pick.core)?;
    let outcome = machine.make_step(pick)?;
    // By what was kept before the step: a commit writes it, and keeps it no longer.
    let delta = difference(alloc, &behind.kept, &before, outcome, machine)?;
    behind.watch.note(&before.asked, outcome);
    behind
        .kept
        .take(alloc, pick.core, outcome, delta.stored.as_slice())?;
    Ok(TakenStep {
        outcome,
        before: state,
        delta,
    })
}

// What the machine shows of a core that it has, before its step.
fn before_of(alloc: Global, machine: &Machine, core: u8) -> Result<Before, Refusal>
    ensures before { IfOk result (IsBefore machine.now core) }
    ensures refused { IfErr result IsAnyWant }
{
    match Before::of(alloc, machine, core) {
        Ok(before) => Ok(before),
        Err(_) => Err(Refusal::Fault(Fault::Run(RunFault::NoMemory))),
    }
}

// What a step changed, of which core these bytes were kept.
fn difference(
    alloc: Global,
    kept: &Kept,
    before: &Before,
    outcome: Outcome,
    machine: &Machine,
) -> Result<PageDelta, Refusal>
    ensures delta { IfOk result (λ delta. (row : List ℕ)
        × ((address : ℕ) → is_listed row address ≡ is_kept kept.now.bytes.items before.now.asked.core address)
        × ((start : ShownMachine) → IsBefore start before.now.asked.core before.now →
        IsDifference start machine.now before.now.asked.core outcome before.now.reach row delta)) }
    ensures refused { IfErr result IsAnyWant }
{
    let row = kept.of(alloc, before.asked.core)?;
    match delta_of(alloc, before, outcome, row.as_slice(), machine) {
        Ok(delta) => Ok(delta),
        Err(_) => Err(Refusal::Fault(Fault::Run(RunFault::NoMemory))),
    }
}

fn state_of(machine: &Machine, pick: Pick) -> Result<CoreState, Refusal>
    ensures state { IfOk result (λ state. state ≡ (view_at machine.now pick.core).mode) }
    ensures refused { IfErr result (IsNoCore machine.now pick) }
{
    match machine.state(pick.core) {
        Ok(state) => Ok(state),
        Err(_) => Err(Refusal::Fault(Fault::Run(RunFault::NoSuchCore))),
    }
}

// Where a run stands behind a step that was made behind so many others.
#[derive(Clone, Copy)]
struct Standing<'a> {
    alloc: Global,
    window: Window,
    made: u64,
    machine: &'a Machine,
    behind: &'a Behind,
    lines: &'a [UsedLine],
}

// Writes what stands in a page of a step: its line, or what opens the page behind it, or nothing.
fn put_told<O: Out>(standing: Standing<'_>, told: &TakenStep, out: &mut O) -> Result<(), Refusal>
    ensures piece { OnOk result ((pick : Pick) → IsPiece standing.entry.window standing.entry.made
        (record { pick = pick; outcome = told.now.outcome; before = told.now.before; delta = told.now.delta })
        (O.device out.old) (O.device out.new)) }
    ensures refused { IfErr result IsUntold }
{
    let Standing {
        alloc,
        window,
        made,
        machine,
        behind,
        lines,
    } = standing;
    if window.holds(made) {
        return put_line(alloc, made == window.from, &told.delta, told.before, out);
    }
    if window.opens(made) {
        return put_opening(alloc, machine, behind, lines, out);
    }
    Ok(())
}

// Writes the line of a step, the first or one behind another.
fn put_line<O: Out>(
    alloc: Global,
    is_first: bool,
    delta: &PageDelta,
    before: CoreState,
    out: &mut O,
) -> Result<(), Refusal>
    ensures text { OnOk result (Wrote (O.device out.old) (O.device out.new) (line_text is_first delta.now before)) }
    ensures plain { OnOk result (ArePlain (line_text is_first delta.now before)) }
    ensures refused { IfErr result IsUntold }
{
    let line = line_of(alloc, delta, before)?;
    put_plain(before_line(is_first), out)?;
    put_plain(line.as_slice(), out)
}

// What stands before a line.
fn before_line(is_first: bool) -> &'static [u8]
    ensures { result.now ≡ line_front is_first }
{
    if is_first { b"\n" } else { b",\n" }
}

fn line_of(alloc: Global, delta: &PageDelta, before: CoreState) -> Result<Vec<u8>, AllocError>
    ensures { IfOk result (λ line. line.items ≡ step_text delta.now before) }
{
    let mut line = ToVec::new(Vec::new(alloc));
    match write_step(delta, before, &mut line) {
        Ok(()) => Ok(line.bytes),
        Err(_) => Err(AllocError),
    }
}
