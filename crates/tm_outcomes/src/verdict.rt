//! What the links of a search that is over say: which states cannot end, and which need not.
//!
//! [`verdict_of`] marks the nodes that lead to an end (`marks`), tells those that are not marked (`stuck`), and
//! looks among the others for a cycle (`cycle`). Of a search that was cut it is not asked, since links are wanting
//! there.

ghost use Rattle.std.specs.Prelude.{◌<◌, All, IfErr, IfOk, length};
ghost use Rattle.tm_outcomes.specs.Links.{LiesWithin};
ghost use Rattle.tm_outcomes.specs.Nodes.{AreNodesOf};
ghost use Rattle.tm_outcomes.specs.Outcomes.{IsRefusal};
ghost use Rattle.tm_outcomes.specs.Searching.{IsVerdictOf};
ghost use Rattle.tm_outcomes.specs.Written.{IsBenchOf};

use crate::bench::Bench;
use crate::components::Components;
use crate::cycle::{Cycle, cycle_of};
use crate::fault::SearchFault;
use crate::graph::Graph;
use crate::laps::FairLinks;
use crate::links::Link;
use crate::marks::marks_of;
use crate::nodes::Node;
use crate::stuck::{Stuck, stuck_of};
use crate::task::Task;

/// The states of a search that need not come to an end.
#[derive(Drop)]
pub struct Verdict {
    /// Those from which none can be reached.
    pub stuck: Option<Stuck>,
    /// Those from which one can, and a cycle that can be made for ever.
    pub cycle: Option<Cycle>,
}

/// What is judged: a search that is over.
#[derive(Clone, Copy)]
pub struct Judged<'a> {
    /// The states.
    pub nodes: &'a [Node],
    /// The steps that were followed.
    pub links: &'a [Link],
    /// Of each the core whose step it is.
    pub cores: &'a [u8],
    /// The nodes of states where each core has stopped.
    pub ends: &'a [u32],
}

/// The verdict on a search that is over.
pub fn verdict_of(
    task: &Task<'_>,
    bench: &mut Bench,
    judged: &Judged<'_>,
) -> Result<Verdict, SearchFault>
    requires nodes { AreNodesOf task.now.trial judged.now.nodes.now }
    requires bench { IsBenchOf task.now.trial judged.now.nodes.now bench.old }
    requires links { All (LiesWithin (length judged.now.nodes.now)) judged.now.links.now }
    requires ends { All (λ node. node < length judged.now.nodes.now) judged.now.ends.now }
    ensures ok { IfOk result
        (IsVerdictOf task.now.trial judged.now.nodes.now judged.now.links.now judged.now.ends.now) }
    ensures err { IfErr result (IsRefusal task.now.trial) }
{
    let nodes = judged.nodes;
    let marked = marks_of(task.alloc, judged.links, nodes.len(), judged.ends)?;
    let stuck = stuck_of(task.alloc, nodes, marked.as_slice())?;
    let graph = Graph::of(task.alloc, judged.links, judged.cores)?;
    let cores = task.trial.program.cores();
    let components = Components::of(task.alloc, &graph, cores, marked.as_slice(), judged.ends)?;
    let fair = FairLinks { graph, components };
    let cycle = cycle_of(task, bench, nodes, &fair, marked.as_slice())?;
    Ok(Verdict { stuck, cycle })
}
