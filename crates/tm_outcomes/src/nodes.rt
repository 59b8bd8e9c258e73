//! The states that were met, each kept as the last steps of a schedule that leads there.
//!
//! [`schedule_of`] puts the whole schedule together from the node back to the opening one; [`place_of`] brings a
//! machine there by making it (`replay`). Whether two nodes are one state is not known from this: `bench` compares
//! machines.

ghost use Rattle.std.specs.Prelude.{◌≡◌, ◌<◌, ◌^◌, ◌++◌, All, List, IfErr, IfOk, length, reverse};
ghost use Rattle.tm_model.specs.declared.outcome.Pick.{Pick};
ghost use Rattle.tm_outcomes.specs.Nodes.{AreNodesOf, HaveSchedules, IsOnWay, IsTree, StandsAtNode, schedule_at};
ghost use Rattle.tm_outcomes.specs.Nodes.{steps_along};
ghost use Rattle.tm_outcomes.specs.Outcomes.{IsRefusal};
ghost use Rattle.tm_outcomes.specs.Written.{IsPlaceIn, IsWrittenOf};
ghost use Rattle.tm_outcomes.specs.declared.trial.Trial.{Trial};

use crate::fault::SearchFault;
use crate::place::Place;
use crate::task::Task;
use crate::written::Written;
use std::alloc::{AllocError, Global};
use tm_model::Pick;

/// A state: the last steps of a schedule that leads there, and the node of the rest. The first is the opening state.
#[derive(Debug, Drop)]
pub struct Node {
    /// The node before these steps.
    pub parent: u32,
    /// The steps: one that is followed, and then those that no other core sees.
    pub steps: Vec<Pick>,
    /// Equal for states that go on alike.
    pub digest: u64,
    /// The node before this one whose digest is the same.
    pub older: Option<u32>,
}

/// A node, and a machine that stands there: what a state shows is read of it.
#[derive(Clone, Copy)]
pub struct NodeState<'a> {
    /// The states that were met.
    pub nodes: &'a [Node],
    /// Which of them it is.
    pub index: usize,
    /// The machine that stands there.
    pub place: &'a Place,
}

/// The schedule of a node.
pub fn schedule_of(alloc: Global, nodes: &[Node], index: usize) -> Result<Vec<Pick>, AllocError>
    requires within { index < length nodes.now }
    requires tree { (trial : Trial) × HaveSchedules trial nodes.now }
    ensures { IfOk result
        (λ schedule. (trial : Trial) (schedules : List (List Pick)) → IsTree trial nodes.now schedules →
        schedule.items ≡ schedule_at schedules index) }
{
    let mut picks = Vec::new(alloc);
    let mut at = index;
    'steps: while at > 0 {
        let node = &nodes[at];
        push_reversed(&mut picks, node.steps.as_slice())?;
        at = node.parent as usize;
    }
    picks.as_mut_slice().reverse();
    Ok(picks)
}

// Adds these steps, the last one first.
fn push_reversed(picks: &mut Vec<Pick>, steps: &[Pick]) -> Result<(), AllocError>
    ensures { IfOk result (λ _. picks.new.items ≡ picks.old.items ++ reverse steps.now) }
{
    let mut left = steps;
    'steps: while let Some((last, before)) = left.split_last() {
        picks.push(*last)?;
        left = before;
    }
    Ok(())
}

/// The nodes on the way to a node, the last one first, and without the opening one.
fn way_of(alloc: Global, nodes: &[Node], index: usize) -> Result<Vec<u32>, AllocError>
    requires within { index < length nodes.now }
    requires few { length nodes.now < 2 ^ 32 }
    requires tree { (trial : Trial) × HaveSchedules trial nodes.now }
    ensures steps { IfOk result
        (λ way. (trial : Trial) (schedules : List (List Pick)) → IsTree trial nodes.now schedules →
        steps_along nodes.now way.items ≡ schedule_at schedules index) }
    ensures nodes { IfOk result (λ way. All (IsOnWay (length nodes.now)) way.items) }
{
    let mut way = Vec::new(alloc);
    let mut at = index;
    'steps: while at > 0 {
        let node = &nodes[at];
        way.push(at as u32)?;
        at = node.parent as usize;
    }
    Ok(way)
}

/// Brings a place to the node.
pub fn place_of(
    task: &Task<'_>,
    nodes: &[Node],
    index: usize,
    written: &Written,
    place: &mut Place,
) -> Result<(), SearchFault>
    requires within { index < length nodes.now }
    requires nodes { AreNodesOf task.now.trial nodes.now }
    requires written { IsWrittenOf task.now.trial nodes.now written.now }
    requires place { IsPlaceIn task.now.trial written.now place.old }
    ensures place { IsPlaceIn task.now.trial written.now place.new }
    ensures ok { IfOk result (λ _. StandsAtNode task.now.trial nodes.now place.new index) }
    ensures err { IfErr result (IsRefusal task.now.trial) }
{
    let way = way_of(task.alloc, nodes, index)?;
    place.replay(&task.trial, written, nodes, way.as_slice());
    Ok(())
}
