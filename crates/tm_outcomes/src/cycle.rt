//! A cycle that can be made for ever.
//!
//! Its steps come under no event where events may come but need not: they come from outside, and none comes for ever.
//! Which states lie on such cycles is found in the links of the search, of which nothing is promised. What is told of
//! them is made once: a schedule, and behind it the steps of the cycle, one of each core that has not stopped among
//! them, which lead back to a state that is shown alike. So what is told is so; that no other is left out is not
//! promised.

ghost use Rattle.std.specs.Prelude.{◌≡◌, ◌<◌, ◌++◌, ℕ, All, IfErr, IfOk, IfSome, IsTrue, List, false, length};
ghost use Rattle.tm_core.specs.Theorem.{view_at};
ghost use Rattle.tm_model.specs.declared.outcome.Pick.{Pick};
ghost use Rattle.tm_outcomes.specs.Nodes.{AreNodesOf, IsTree, IsUsualPick};
ghost use Rattle.tm_outcomes.specs.Outcomes.{IsRefusal};
ghost use Rattle.tm_outcomes.specs.Places.{IsAt, has_stopped};
ghost use Rattle.tm_outcomes.specs.Searching.{GoesRound, IsMade, IsRoundOf};
ghost use Rattle.tm_outcomes.specs.Verdicts.{HasStepOf};
ghost use Rattle.tm_outcomes.specs.Written.{IsBenchOf, IsPlaceIn};

use crate::bench::Bench;
use crate::fault::SearchFault;
use crate::graph::Graph;
use crate::laps::{FairLinks, lap_of};
use crate::nodes::{Node, place_of, schedule_of};
use crate::place::Place;
use crate::task::Task;
use crate::trial::Trial;
use crate::written::Written;
use std::alloc::{AllocError, Global};
use tm_model::Pick;

/// States from which an end can be reached, but from which all cores that have not stopped can also go on for ever,
/// each of them again and again.
#[derive(Debug, Drop)]
pub struct Cycle {
    /// How many such states were found, 1 or more.
    pub states: u32,
    /// The steps of a schedule that leads to one: of those that were found, one with the fewest steps that are
    /// followed.
    pub schedule: Vec<Pick>,
    /// Steps that lead from there back to a state that is shown alike, one of each core that has not stopped among
    /// them.
    pub steps: Vec<Pick>,
}

// The picks of these links.
fn picks_of_lap(
    task: &Task<'_>,
    graph: &Graph<'_>,
    lap: &[u32],
) -> Result<Option<Vec<Pick>>, AllocError>
    ensures { IfOk result (λ found. IfSome found (λ picks. All (IsUsualPick task.now.trial) picks.items)) }
{
    let mut picks = Vec::new(task.alloc);
    for link in lap {
        let Some(pick) = pick_of(&task.trial, graph, *link) else {
            return Ok(None);
        };
        picks.push(pick)?;
    }
    Ok(Some(picks))
}

// The pick of a link.
fn pick_of(trial: &Trial<'_>, graph: &Graph<'_>, link: u32) -> Option<Pick>
    ensures { IfSome result (IsUsualPick trial.now) }
{
    match graph.core(link) {
        Some(core) => usual_pick(trial, core),
        None => None,
    }
}

// The next step of a core, under no event where there need be none.
fn usual_pick(trial: &Trial<'_>, core: u8) -> Option<Pick>
    ensures { IfSome result (IsUsualPick trial.now) }
{
    if core >= trial.program.cores() {
        return None;
    }
    Some(Pick {
        core,
        event: trial.usual_event(),
    })
}

// Of each core whether it has stopped.
fn stopped_cores(alloc: Global, place: &Place) -> Result<Vec<bool>, AllocError> {
    let mut stopped = Vec::new(alloc);
    for core in 0..place.machine.cores() {
        stopped.push(place.has_stopped(core))?;
    }
    Ok(stopped)
}

// The picks of a lap from a state on, by which each core makes a step that has not stopped there.
fn picks_of(
    task: &Task<'_>,
    fair: &FairLinks<'_>,
    first: u32,
    place: &Place,
) -> Result<Option<Vec<Pick>>, AllocError>
    ensures { IfOk result (λ found. IfSome found (λ picks. All (IsUsualPick task.now.trial) picks.items)) }
{
    let mut has_step = stopped_cores(task.alloc, place)?;
    let Some(lap) = lap_of(task.alloc, fair, first, &mut has_step)? else {
        return Ok(None);
    };
    picks_of_lap(task, &fair.graph, lap.as_slice())
}

// Makes a pick and the steps behind it that no other core sees, with their stores noted before, and adds these steps.
fn make(
    task: &Task<'_>,
    pick: Pick,
    here: &mut Place,
    noted: &mut Written,
    steps: &mut Vec<Pick>,
) -> Result<(), AllocError>
    requires pick { IsUsualPick task.now.trial pick }
    requires place { IsPlaceIn task.now.trial noted.old here.old }
    requires at { (schedule : List Pick) × IsAt task.now.trial here.old schedule }
    ensures { IfOk result (λ _. (added : List Pick) × (steps.new.items ≡ steps.old.items ++ added)
        × IsMade task.now.trial here.old here.new noted.old noted.new added) }
{
    noted.note(task.alloc, &here.machine, pick.core)?;
    let made = here.advance(task.alloc, &task.trial, pick)?;
    steps.extend_from_slice(made.as_slice())?;
    Ok(())
}

// Makes these picks so, and answers all steps.
fn make_all(
    task: &Task<'_>,
    picks: &[Pick],
    here: &mut Place,
    noted: &mut Written,
) -> Result<Vec<Pick>, AllocError>
    requires picks { All (IsUsualPick task.now.trial) picks.now }
    requires place { IsPlaceIn task.now.trial noted.old here.old }
    requires at { (schedule : List Pick) × IsAt task.now.trial here.old schedule }
    ensures { IfOk result (λ steps. IsMade task.now.trial here.old here.new noted.old noted.new steps.items) }
{
    let mut steps = Vec::new(task.alloc);
    for pick in picks {
        make(task, *pick, here, noted, &mut steps)?;
    }
    Ok(steps)
}

// Whether each core that has not stopped makes one of these steps.
fn is_fair(place: &Place, steps: &[Pick]) -> bool
    ensures { IsTrue result → (core : ℕ) → core < length place.now.machine.views →
        has_stopped (view_at place.now.machine core).mode ≡ false → HasStepOf core steps.now }
{
    for core in 0..place.machine.cores() {
        if !place.has_stopped(core) && !has_step_of(core, steps) {
            return false;
        }
    }
    true
}

// Whether one of these steps is the core's.
fn has_step_of(core: u8, steps: &[Pick]) -> bool
    ensures { IsTrue result → HasStepOf core steps.now }
{
    for pick in steps {
        if pick.core == core {
            return true;
        }
    }
    false
}

// Steps that lead from a node round to what is shown as it is, one of each core that has not stopped among them.
fn round_of(
    task: &Task<'_>,
    bench: &mut Bench,
    nodes: &[Node],
    fair: &FairLinks<'_>,
    first: u32,
) -> Result<Option<Vec<Pick>>, SearchFault>
    requires within { first < length nodes.now }
    requires nodes { AreNodesOf task.now.trial nodes.now }
    requires bench { IsBenchOf task.now.trial nodes.now bench.old }
    ensures ok { IfOk result (λ found. IfSome found (λ steps. (schedules : List (List Pick)) →
        IsTree task.now.trial nodes.now schedules → GoesRound task.now.trial schedules first steps.items)) }
    ensures err { IfErr result (IsRefusal task.now.trial) }
{
    let Bench {
        here,
        other,
        noted,
        ..
    } = bench;
    place_of(task, nodes, first as usize, noted, other)?;
    let Some(picks) = picks_of(task, fair, first, other)? else {
        return Ok(None);
    };
    place_of(task, nodes, first as usize, noted, here)?;
    let steps = make_all(task, picks.as_slice(), here, noted)?;
    if other.has_ended() {
        return Ok(None);
    }
    if !is_fair(other, steps.as_slice()) {
        return Ok(None);
    }
    if !here.is_alike(other, noted) {
        return Ok(None);
    }
    Ok(Some(steps))
}

/// A cycle of a search that is over, by its links, from a state that is marked, since an end can be reached from it.
/// None is told where stores may be pending.
pub fn cycle_of(
    task: &Task<'_>,
    bench: &mut Bench,
    nodes: &[Node],
    fair: &FairLinks<'_>,
    marked: &[bool],
) -> Result<Option<Cycle>, SearchFault>
    requires marked { length marked.now ≡ length nodes.now }
    requires nodes { AreNodesOf task.now.trial nodes.now }
    requires bench { IsBenchOf task.now.trial nodes.now bench.old }
    ensures ok { IfOk result (λ cycle. IfSome cycle (IsRoundOf task.now.trial nodes.now marked.now)) }
    ensures err { IfErr result (IsRefusal task.now.trial) }
{
    // A store that stays pending for ever is no fault of the program.
    if task.trial.limits.stores > 0 {
        return Ok(None);
    }
    let Some(first) = fair.components.first else {
        return Ok(None);
    };
    if first as usize >= nodes.len() {
        return Ok(None);
    }
    if !marked[first as usize] {
        return Ok(None);
    }
    let Some(steps) = round_of(task, bench, nodes, fair, first)? else {
        return Ok(None);
    };
    let schedule = schedule_of(task.alloc, nodes, first as usize)?;
    Ok(Some(Cycle {
        states: fair.components.states,
        schedule,
        steps,
    }))
}
