//! A step, and whom it hits: a machine whose steps a timeline is told.
//!
//! [`Watcher`] asks the machine before the step what is told of it, by one preview, and only where the picture shows
//! steps or lines; and whom a drain in its place would hit, where a store is pending (`hits`). What is asked is filled
//! in place. Behind the step the timeline is told the hits, then the step, what it did, and last the variables: a hit
//! is of transactions that were open before. Which part is drawn, and how, is the timeline's.

ghost use Rattle.std.specs.Prelude.{◌≡◌, ◌∷◌, [], IfOk, OnOk};
ghost use Rattle.elide_draw.specs.Told.{AreTold};
ghost use Rattle.elide_setup.specs.Runs.{AreMachineSteps, IsMachineStep};
ghost use Rattle.tm_timeline.specs.Told.{SameSteps};

use crate::hits::Hits;
use crate::rounds::{MadeStep, Rounds};
use crate::scene::Scene;
use elide_setup::{Refusal, StepMaker};
use std::alloc::AllocError;
use tm_core::Machine;
use tm_model::{CoreState, Outcome, Pick};
use tm_timeline::Timeline;
use tm_trace::{Before, Deed};

/// A machine whose steps a timeline is told.
#[derive(Drop)]
pub struct Watcher<S> {
    /// The machine.
    pub machine: Machine,
    /// The timeline.
    pub timeline: Timeline,
    /// What steps are described by.
    pub scene: S,
    /// In which rounds of loops the cores are.
    pub rounds: Rounds,
    /// What was asked of the last step: asked anew of each, in place.
    pub asked: Asked,
}

impl<S: Scene + Drop> Watcher<S> {
    /// The timeline.
    pub fn into_timeline(self) -> Timeline
        ensures { result ≡ self.timeline }
    {
        let Watcher { timeline, .. } = self;
        timeline
    }
}

impl<S: Scene> StepMaker for Watcher<S> {
    ghost takes = { λ before steps after. AreMachineSteps before.machine steps after.machine
        × AreTold before.timeline steps after.timeline };

    fn make_step(&mut self, pick: Pick) -> Result<Outcome, Refusal> {
        watch_step(
            &mut self.machine,
            pick,
            &mut self.timeline,
            &self.scene,
            &mut self.rounds,
            &mut self.asked,
        )
    }
}

// Makes a step, and tells a timeline whom it hits, what it was, and what memory holds behind it.
fn watch_step<S: Scene>(
    machine: &mut Machine,
    pick: Pick,
    timeline: &mut Timeline,
    scene: &S,
    rounds: &mut Rounds,
    asked: &mut Asked,
) -> Result<Outcome, Refusal>
    ensures step { IfOk result (λ outcome. IsMachineStep machine.old pick outcome machine.new) }
    ensures told { IfOk result (λ outcome. AreTold timeline.old ((pick, outcome) ∷ []) timeline.new) }
{
    let core = pick.core;
    ask(machine, core, timeline, scene, asked);
    let outcome = machine.make_step(pick)?;
    // Before the step is told: the timeline still has the transactions that were open before it.
    tell_hits(machine, core, asked.hits_by(outcome), timeline)?;
    let step = MadeStep {
        pick,
        outcome,
        before: asked.before,
    };
    tell_step(machine, &step, timeline, scene, rounds)?;
    tell_variables(machine, scene.variables(), timeline)?;
    Ok(outcome)
}

/// What is asked of a step before it is made, as far as the picture shows it.
#[derive(Drop)]
pub struct Asked {
    // What is known of it, where it is described.
    before: Option<Before>,
    // How it hits each core, where lines are shown.
    hits: Hits,
    // How a drain in its place does.
    drains: Hits,
}

impl Asked {
    /// Of no step yet.
    pub fn nothing() -> Asked {
        Asked {
            before: None,
            hits: Hits::new(),
            drains: Hits::new(),
        }
    }

    // The hits, once it is known whether a drain came in the place of the step.
    fn hits_by(&self, outcome: Outcome) -> &Hits {
        match outcome {
            Outcome::Drained => &self.drains,
            _ => &self.hits,
        }
    }
}

// Previews a step where a picture shows it: one that shows steps shows lines. Of a core that is not there nothing is
// known: its step is refused.
fn ask<S: Scene>(machine: &Machine, core: u8, timeline: &Timeline, scene: &S, asked: &mut Asked) {
    asked.before = None;
    asked.hits.none();
    asked.drains.none();
    if !timeline.shows_lines() {
        return;
    }
    let Ok(preview) = machine.preview(core) else {
        return;
    };
    if timeline.shows_steps() {
        asked.before = Some(scene.before(machine, core, preview.reach));
    }
    asked.hits.ask(machine, &preview);
    if machine.stores() > 0 {
        asked.drains.ask_drain(machine, core);
    }
}

// Tells what a step was, and what there is to tell of one that is drawn.
fn tell_step<S: Scene>(
    machine: &Machine,
    step: &MadeStep,
    timeline: &mut Timeline,
    scene: &S,
    rounds: &mut Rounds,
) -> Result<(), AllocError>
    ensures { OnOk result (AreTold timeline.old ((step.now.pick, step.now.outcome) ∷ []) timeline.new) }
{
    timeline.note(step.pick.core, step.outcome)?;
    tell_deed(machine, step, timeline, scene, rounds)
}

// Tells of a step that is drawn what it did and whether its core waited.
#[tactic(auto, using(crate::proofs::Telling::same_self, crate::proofs::Telling::same_more))]
fn tell_deed<S: Scene>(
    machine: &Machine,
    step: &MadeStep,
    timeline: &mut Timeline,
    scene: &S,
    rounds: &mut Rounds,
) -> Result<(), AllocError>
    ensures { SameSteps timeline.old timeline.new }
{
    let Some(deed) = deed_of(machine, step) else {
        return Ok(());
    };
    timeline.describe(scene.text(&deed)?)?;
    rounds.tell(machine, step, &deed, timeline);
    Ok(())
}

// What a step did.
fn deed_of(machine: &Machine, step: &MadeStep) -> Option<Deed> {
    let core = step.pick.core;
    if core < machine.cores() {
        Some(step.before?.deed(machine, core, &step.outcome))
    } else {
        None
    }
}

/// Tells what memory has at each variable.
#[tactic(auto, using(crate::proofs::Telling::same_self, crate::proofs::Telling::same_more))]
pub fn tell_variables(
    machine: &Machine,
    addresses: &[u32],
    timeline: &mut Timeline,
) -> Result<(), AllocError>
    ensures { SameSteps timeline.old timeline.new }
{
    let memory = machine.view();
    for index in 0..addresses.len() {
        tell_variable(memory, addresses[index], index, timeline)?;
    }
    Ok(())
}

// Tells what memory has at the variable of this index, where it has a doubleword there.
#[tactic(auto, using(crate::proofs::Telling::same_self))]
fn tell_variable(
    memory: &[u8],
    address: u32,
    index: usize,
    timeline: &mut Timeline,
) -> Result<(), AllocError>
    ensures { SameSteps timeline.old timeline.new }
{
    match doubleword_at(memory, address) {
        Some(value) => timeline.tell_variable(index, value),
        None => Ok(()),
    }
}

// The doubleword at an address, where memory has it.
fn doubleword_at(memory: &[u8], address: u32) -> Option<u32> {
    let start = address as usize;
    if start + 4 > memory.len() {
        return None;
    }
    Some(u32::from_le_bytes([
        memory[start],
        memory[start + 1],
        memory[start + 2],
        memory[start + 3],
    ]))
}

// Tells the transactions that were open before the step and are condemned behind it. Where it was asked whom the step
// hits, and it hits nobody, there are none.
#[tactic(auto, using(crate::proofs::Telling::same_self, crate::proofs::Telling::same_more))]
fn tell_hits(
    machine: &Machine,
    core: u8,
    hits: &Hits,
    timeline: &mut Timeline,
) -> Result<(), AllocError>
    ensures { SameSteps timeline.old timeline.new }
{
    if timeline.shows_lines() && !hits.are_some() {
        return Ok(());
    }
    for victim in 0..machine.cores() {
        tell_hit(machine, core, victim, hits, timeline)?;
    }
    Ok(())
}

// Tells the transaction of a core, where it was open before the step and is condemned behind it.
#[tactic(auto, using(crate::proofs::Telling::same_self))]
fn tell_hit(
    machine: &Machine,
    core: u8,
    victim: u8,
    hits: &Hits,
    timeline: &mut Timeline,
) -> Result<(), AllocError>
    ensures { SameSteps timeline.old timeline.new }
{
    if !timeline.is_open(victim) || !is_condemned(machine, victim) {
        return Ok(());
    }
    timeline.hit(victim, core, hits.on(victim))
}

// Whether the transaction of a core is doomed.
fn is_condemned(machine: &Machine, core: u8) -> bool {
    matches!(machine.state(core), Ok(CoreState::Condemned(_)))
}
