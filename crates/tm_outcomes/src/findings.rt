//! What was found at the states of a search.
//!
//! [`Findings::show`] is called for each state when it is gone on from: it takes up whether a step waits for room and
//! stops of any state, and of an end the checks that it violates, its node, and then its outcome. States come in the
//! order in which they were met, so the first schedule that shows something has the fewest steps that are followed.
//! Whether an end can be reached is asked when the search is over, by `verdict`.

ghost use Rattle.std.specs.Prelude.{◌≡◌, ◌<◌, ◌++◌, ◌∷◌, [], IfErr, IfOk, List, OnOk, false, length};
ghost use Rattle.tm_model.specs.declared.outcome.Pick.{Pick};
ghost use Rattle.tm_outcomes.specs.Nodes.{AreNodesOf, IsTree};
ghost use Rattle.tm_outcomes.specs.Outcomes.{AreThere, IsRefusal};
ghost use Rattle.tm_outcomes.specs.Searching.{AreFindings, Shows};
ghost use Rattle.tm_outcomes.specs.Written.{IsBenchOf};

use crate::bench::Bench;
use crate::fault::SearchFault;
use crate::nodes::{Node, NodeState, schedule_of};
use crate::room::take_up_wait;
use crate::stops::{ReachedStop, take_up_stops};
use crate::table::{FoundOutcome, take_up};
use crate::task::Task;
use crate::violations::{Violation, take_up_checks};
use std::alloc::{AllocError, Global};

/// What was found so far.
#[derive(Drop)]
pub struct Findings {
    /// The outcomes.
    pub outcomes: Vec<FoundOutcome>,
    /// The nodes of states where each core has stopped.
    pub ends: Vec<u32>,
    /// The stops that are looked for.
    pub stops: Vec<ReachedStop>,
    /// The checks that an end violates.
    pub violations: Vec<Violation>,
    /// Whether a step waits for room among the stores that are pending.
    pub waited: bool,
}

impl Findings {
    /// None.
    pub fn new(alloc: Global) -> Findings
        ensures outcomes { result.outcomes.items ≡ [] }
        ensures ends { result.ends.items ≡ [] }
        ensures stops { result.stops.items ≡ [] }
        ensures violations { result.violations.items ≡ [] }
        ensures waited { result.waited ≡ false }
    {
        Findings {
            outcomes: Vec::new(alloc),
            ends: Vec::new(alloc),
            stops: Vec::new(alloc),
            violations: Vec::new(alloc),
            waited: false,
        }
    }

    /// Takes up what is found at the state of a node.
    pub fn show(
        &mut self,
        task: &Task<'_>,
        bench: &mut Bench,
        nodes: &[Node],
        index: usize,
    ) -> Result<(), SearchFault>
        requires bench { IsBenchOf task.now.trial nodes.now bench.old }
        requires within { index < length nodes.now }
        requires nodes { AreNodesOf task.now.trial nodes.now }
        requires there { AreThere task.now.trial }
        requires found { AreFindings task.now.trial self.old }
        ensures found { OnOk result (AreFindings task.now.trial self.new) }
        ensures shows { OnOk result ((schedules : List (List Pick)) → IsTree task.now.trial nodes.now schedules →
            Shows task.now.trial schedules self.old self.new index) }
        ensures bench { OnOk result (IsBenchOf task.now.trial nodes.now bench.new) }
        ensures noted { bench.new.noted ≡ bench.old.noted }
        ensures err { IfErr result (IsRefusal task.now.trial) }
    {
        bench.come_to(task, nodes, index)?;
        let at = NodeState {
            nodes,
            index,
            place: &bench.start,
        };
        take_up_wait(task, &at, &mut self.waited);
        // A core may stop while others go on for ever: this is no matter of ends.
        take_up_stops(task, &at, &mut self.stops)?;
        if !bench.start.has_ended() {
            return Ok(());
        }
        take_up_checks(task, &at, &mut self.violations)?;
        add_end(&mut self.ends, index as u32)?;
        let values = bench.start.values(task.alloc, &task.trial)?;
        let schedule = schedule_of(task.alloc, nodes, index)?;
        take_up(&task.trial, &mut self.outcomes, values, schedule)?;
        Ok(())
    }
}

// Adds the node of a state where each core has stopped.
fn add_end(ends: &mut Vec<u32>, node: u32) -> Result<(), AllocError>
    ensures { IfOk result (λ _. ends.new.items ≡ ends.old.items ++ node ∷ []) }
{
    ends.push(node)?;
    Ok(())
}
