//! A schedule, run twice: once to count its steps, where it is drawn step by step, and once to watch them.
//!
//! [`count_steps`] comes first, since the part that is drawn depends on how many steps there are; a list is not run for
//! that. [`watch_course`] makes the steps again, and tells a timeline of each. What is to be shown of memory is tested
//! before the second run. The picks of a draw are kept by the first, for the record.

ghost use Rattle.std.specs.Prelude.{◌≡◌, IfOk, List};
ghost use Rattle.elide_draw.specs.Told.{AreTold, IsToldOf};
ghost use Rattle.elide_draw.specs.Watched.{IsTally, IsWatched};
ghost use Rattle.elide_setup.specs.Runs.{AreMachineSteps};
ghost use Rattle.elide_setup.specs.Schedules.{AreOf, kept_of, picks_made};
ghost use Rattle.tm_core.specs.Theorem.{ShownMachine};
ghost use Rattle.elide_setup.specs.Walks.{Leads};
ghost use Rattle.tm_model.specs.declared.outcome.Outcome.{Outcome};
ghost use Rattle.tm_model.specs.declared.outcome.Pick.{Pick};
ghost use Rattle.tm_timeline.specs.Told.{Grows, IsBlank, SameSteps};
ghost use Rattle.tm_timeline.specs.declared.timeline.Timeline.{Timeline};

use crate::rounds::Rounds;
use crate::scene::Scene;
use crate::watch::{Asked, Watcher, tell_variables};
use elide_device::Progress;
use elide_setup::{Course, Refusal, Setup, StepMaker, new_machine, shown_memory};
use std::alloc::{AllocError, Global};
use tm_core::Machine;
use tm_model::{Outcome, Pick};
use tm_timeline::{Label, Timeline, Window};

/// What a schedule came to before it is watched.
#[derive(Debug, Drop)]
pub struct Tally {
    /// How many steps it makes.
    pub total: u32,
    /// The picks that were drawn, where they were asked for.
    pub made: Vec<Pick>,
}

/// How many steps a schedule makes: those of the list, or those that are drawn until all cores have stopped or the
/// limit is reached. `keeps` asks for the picks that are drawn.
pub fn count_steps<G: Progress>(
    alloc: Global,
    setup: &Setup,
    course: &Course,
    keeps: bool,
    progress: &mut G,
) -> Result<Tally, Refusal>
    ensures { IfOk result (λ tally. IsTally setup.now course.now keeps tally.made.items) }
{
    match course {
        Course::Listed(steps) => Ok(Tally {
            total: u32::try_from(steps.len()).unwrap_or(u32::MAX),
            made: Vec::new(alloc),
        }),
        Course::Drawn(_) => count_drawn(alloc, setup, course, keeps, progress),
    }
}

// What [`count_steps`] answers of a course that is drawn.
fn count_drawn<G: Progress>(
    alloc: Global,
    setup: &Setup,
    course: &Course,
    keeps: bool,
    progress: &mut G,
) -> Result<Tally, Refusal>
    ensures { IfOk result (λ tally. (made : List (Pick × Outcome)) × IsWatched setup.now course.now made
        × (tally.made.items ≡ kept_of course.now keeps made)) }
{
    let mut counter = Counter {
        machine: new_machine(alloc, setup)?,
        total: 0,
    };
    let cores = counter.machine.cores();
    let walked = course.walk(alloc, cores, keeps, &mut counter, progress);
    let total = counter.total;
    drop(counter);
    match walked {
        Ok(made) => Ok(Tally { total, made }),
        Err(refusal) => Err(refusal),
    }
}

// A machine that counts its steps.
#[derive(Drop)]
struct Counter {
    machine: Machine,
    total: u32,
}

impl StepMaker for Counter {
    ghost takes = { λ before steps after. AreMachineSteps before.machine steps after.machine };

    fn make_step(&mut self, pick: Pick) -> Result<Outcome, Refusal> {
        self.total = self.total.saturating_add(1);
        self.machine.make_step(pick)
    }
}

/// Runs a schedule, and tells a timeline of this window of it. A picker draws the picks that it drew when the steps
/// were counted.
pub fn watch_course<S: Scene + Drop, G: Progress>(
    alloc: Global,
    setup: &Setup,
    course: &Course,
    window: Window,
    scene: S,
    progress: &mut G,
) -> Result<Timeline, Refusal>
    ensures { IfOk result (λ timeline. (made : List (Pick × Outcome)) × IsWatched setup.now course.now made
        × IsToldOf window made timeline) }
{
    let machine = new_machine(alloc, setup)?;
    match open_timeline(alloc, setup, &machine, window, &scene) {
        Ok(timeline) => {
            let watcher = Watcher {
                machine,
                timeline,
                scene,
                rounds: Rounds::new(),
                asked: Asked::nothing(),
            };
            run_watcher(alloc, course, watcher, progress)
        }
        Err(refusal) => {
            drop(machine);
            drop(scene);
            Err(refusal)
        }
    }
}

// The timeline of a machine before its first step, with the scene's variables, which memory has to have.
fn open_timeline<S: Scene>(
    alloc: Global,
    setup: &Setup,
    machine: &Machine,
    window: Window,
    scene: &S,
) -> Result<Timeline, Refusal>
    ensures { IfOk result (λ begun. (blank : Timeline) × IsBlank window blank × SameSteps blank begun) }
{
    shown_memory(machine.view(), &setup.parts, &[])?;
    let mut timeline = Timeline::new(alloc, machine.cores(), window)?;
    match tell_opening(alloc, machine, scene, &mut timeline) {
        Ok(()) => Ok(timeline),
        Err(refused) => Err(Refusal::from(refused)),
    }
}

#[tactic(auto, using(crate::proofs::Telling::same_self, crate::proofs::Telling::same_more))]
fn tell_opening<S: Scene>(
    alloc: Global,
    machine: &Machine,
    scene: &S,
    timeline: &mut Timeline,
) -> Result<(), AllocError>
    ensures { SameSteps timeline.old timeline.new }
{
    for sum in scene.sums() {
        timeline.add_variable(alloc, Label::of(*sum))?;
    }
    tell_variables(machine, scene.variables(), timeline)
}

// The timeline of a watcher that makes the steps of a schedule.
fn run_watcher<S: Scene + Drop, G: Progress>(
    alloc: Global,
    course: &Course,
    mut watcher: Watcher<S>,
    progress: &mut G,
) -> Result<Timeline, Refusal>
    ensures { IfOk result (λ done. (made : List (Pick × Outcome)) × AreOf course.now (picks_made made)
        × (after : ShownMachine) × Leads AreMachineSteps watcher.machine made after
        × (last : Timeline) × AreTold watcher.timeline made last × (done.next ≡ last.next) × Grows last done) }
{
    match make_steps(alloc, course, &mut watcher, progress) {
        Ok(()) => Ok(watcher.into_timeline()),
        Err(refusal) => {
            drop(watcher);
            Err(refusal)
        }
    }
}

// Makes the steps of a schedule, and tells a timeline of them.
fn make_steps<S: Scene, G: Progress>(
    alloc: Global,
    course: &Course,
    watcher: &mut Watcher<S>,
    progress: &mut G,
) -> Result<(), Refusal>
    ensures { IfOk result (λ _. (made : List (Pick × Outcome)) × AreOf course.now (picks_made made)
        × Leads AreMachineSteps watcher.old.machine made watcher.new.machine
        × (last : Timeline) × AreTold watcher.old.timeline made last
        × (watcher.new.timeline.next ≡ last.next) × Grows last watcher.new.timeline) }
{
    let cores = watcher.machine.cores();
    course.walk(alloc, cores, false, watcher, progress)?;
    watcher.timeline.finish()?;
    Ok(())
}
