//! The stops that were looked for, and found.
//!
//! [`take_up_stops`] is called for each state, whether it is an end or not, and keeps of each reason the schedule
//! of the first state that shows it. A stop that the trial does not look for is not kept.

ghost use Rattle.std.specs.Prelude.{◌≡◌, ◌↔◌, ◌<◌, Contains, IsTrue, OnOk};
ghost use Rattle.tm_core.specs.Theorem.{StandsFor};
ghost use Rattle.tm_rule.specs.declared.kinds.Stop.{Stop};
ghost use Rattle.tm_outcomes.specs.Nodes.{IsNodeState};
ghost use Rattle.tm_outcomes.specs.Schedules.{Situation};
ghost use Rattle.tm_outcomes.specs.Searching.{AreStops};
ghost use Rattle.tm_outcomes.specs.Verdicts.{IsStopTold, StopsBy};

use crate::nodes::{NodeState, schedule_of};
use crate::task::Task;
use std::alloc::AllocError;
use tm_model::Pick;
use tm_rule::Stop;

/// A stop that was looked for, and found.
#[derive(Debug, Drop)]
pub struct ReachedStop {
    /// Why a core stops.
    pub why: Stop,
    /// The steps of a schedule that leads there: of those found, one with the fewest steps that are followed.
    pub schedule: Vec<Pick>,
}

// Whether a stop for this reason was found.
fn is_told(stops: &[ReachedStop], why: Stop) -> bool
    ensures { IsTrue result ↔ IsStopTold stops.now why }
{
    for told in stops {
        if is_same(told.why, why) {
            return true;
        }
    }
    false
}

fn is_same(one: Stop, other: Stop) -> bool
    ensures { IsTrue result ↔ (one ≡ other) }
{
    one == other
}

/// Takes up the stops of the state at a node that are looked for, where they were not found before.
pub fn take_up_stops(
    task: &Task<'_>,
    at: &NodeState<'_>,
    stops: &mut Vec<ReachedStop>,
) -> Result<(), AllocError>
    requires at { IsNodeState task.now.trial at.now }
    requires stops { AreStops task.now.trial stops.old.items }
    ensures stops { OnOk result (AreStops task.now.trial stops.new.items) }
    ensures kept { OnOk result ((why : Stop) → IsStopTold stops.old.items why → IsStopTold stops.new.items why) }
    ensures found { OnOk result ((why : Stop) → Contains task.now.trial.stops.now why → (now : Situation) →
        StandsFor at.now.place.now.machine now.state now.doomed → StopsBy now.state why →
        IsStopTold stops.new.items why) }
{
    for why in task.trial.stops {
        take_up_stop(task, at, stops, *why)?;
    }
    Ok(())
}

// Takes up this one of them.
fn take_up_stop(
    task: &Task<'_>,
    at: &NodeState<'_>,
    stops: &mut Vec<ReachedStop>,
    why: Stop,
) -> Result<(), AllocError>
    requires asked { Contains task.now.trial.stops.now why }
    requires at { IsNodeState task.now.trial at.now }
    requires stops { AreStops task.now.trial stops.old.items }
    ensures stops { OnOk result (AreStops task.now.trial stops.new.items) }
    ensures kept { OnOk result ((other : Stop) → IsStopTold stops.old.items other → IsStopTold stops.new.items other) }
    ensures found { OnOk result ((now : Situation) → StandsFor at.now.place.now.machine now.state now.doomed →
        StopsBy now.state why → IsStopTold stops.new.items why) }
{
    if !at.place.stops_by(why) {
        return Ok(());
    }
    if is_told(stops.as_slice(), why) {
        return Ok(());
    }
    let schedule = schedule_of(task.alloc, at.nodes, at.index)?;
    stops.push(ReachedStop { why, schedule })?;
    Ok(())
}
