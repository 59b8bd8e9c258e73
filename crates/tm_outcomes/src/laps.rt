//! Laps: links that lead from a state round to it again, with one of each core that is to have one.
//!
//! [`lap_of`] adds one leg after another, each the shortest to a link of a core that has none yet, and last the
//! shortest back; all stay within the component. Nothing is promised of a lap: `cycle` makes its steps.

use crate::components::{Components, note};
use crate::graph::Graph;
use std::alloc::{AllocError, Global};

/// Where laps are looked for: the links of a search that is over, and the components that they make of its states.
#[derive(Drop)]
pub struct FairLinks<'a> {
    /// The links.
    pub graph: Graph<'a>,
    /// The components, and the first state of those that are fair.
    pub components: Components,
}

/// What is looked for along links.
#[derive(Clone, Copy)]
enum Wanted<'a> {
    /// A link of a core that has none so far.
    Core(&'a [bool]),
    /// One that leads to this state.
    State(u32),
}

impl Wanted<'_> {
    fn is(&self, graph: &Graph<'_>, link: u32) -> bool {
        match self {
            Wanted::Core(has_step) => match graph.core(link) {
                Some(core) => !has_step.get(usize::from(core)).copied().unwrap_or(true),
                None => false,
            },
            Wanted::State(state) => graph.target(link) == Some(*state),
        }
    }
}

/// The links of a lap from this state on, within its component, by which each core has a step that has none so far.
pub fn lap_of(
    alloc: Global,
    fair: &FairLinks<'_>,
    first: u32,
    has_step: &mut Vec<bool>,
) -> Result<Option<Vec<u32>>, AllocError> {
    let mut lap = Vec::new(alloc);
    let mut at = first;
    // Each leg but the last is one of a core that had none.
    for _ in 0..=has_step.len() {
        let is_last = has_step.iter().all(|has| *has);
        if is_last && at == first && lap.len() > 0 {
            return Ok(Some(lap));
        }
        let wanted = if is_last {
            Wanted::State(first)
        } else {
            Wanted::Core(has_step.as_slice())
        };
        let Some(leg) = leg_of(alloc, fair, at, &wanted)? else {
            return Ok(None);
        };
        at = take_up(&fair.graph, leg.as_slice(), &mut lap, has_step, at)?;
        if is_last {
            return Ok(Some(lap));
        }
    }
    Ok(None)
}

// Adds the links of a leg, and notes whose they are. Answers the state to which the last one leads.
fn take_up(
    graph: &Graph<'_>,
    leg: &[u32],
    lap: &mut Vec<u32>,
    has_step: &mut Vec<bool>,
    at: u32,
) -> Result<u32, AllocError> {
    let mut at = at;
    for link in leg {
        lap.push(*link)?;
        if let Some(core) = graph.core(*link) {
            note(has_step, core);
        }
        at = graph.target(*link).unwrap_or(at);
    }
    Ok(at)
}

/// The states that were met from one on, breadth first.
#[derive(Drop)]
struct Reached {
    // Those that were met, in order.
    queue: Vec<u32>,
    // Of each state the link by which it was met.
    by: Vec<Option<u32>>,
}

// The fewest links that lead from a state on, within its component, through one that is wanted.
fn leg_of(
    alloc: Global,
    fair: &FairLinks<'_>,
    from: u32,
    wanted: &Wanted<'_>,
) -> Result<Option<Vec<u32>>, AllocError> {
    let mut reached = Reached {
        queue: vec![in alloc; from]?,
        by: vec![in alloc; None; fair.graph.states()]?,
    };
    for done in 0..fair.graph.states() {
        let Some(state) = reached.queue.get(done).copied() else {
            return Ok(None);
        };
        if let Some(last) = reached.go_on(fair, state, wanted)? {
            return Ok(Some(reached.way_to(alloc, &fair.graph, from, last)?));
        }
    }
    Ok(None)
}

impl Reached {
    // Meets the states of the component to which links lead from this one, up to a link that is wanted.
    fn go_on(
        &mut self,
        fair: &FairLinks<'_>,
        state: u32,
        wanted: &Wanted<'_>,
    ) -> Result<Option<u32>, AllocError> {
        let (start, end) = fair.graph.span(state);
        for link in start..end {
            if fair.components.is_inner(&fair.graph, link) {
                if wanted.is(&fair.graph, link) {
                    return Ok(Some(link));
                }
                self.meet(&fair.graph, link)?;
            }
        }
        Ok(None)
    }

    // Meets the state to which a link leads.
    fn meet(&mut self, graph: &Graph<'_>, link: u32) -> Result<(), AllocError> {
        let Some(to) = graph.target(link) else {
            return Ok(());
        };
        let index = to as usize;
        if index < self.by.len() && self.by[index].is_none() {
            self.by[index] = Some(link);
            self.queue.push(to)?;
        }
        Ok(())
    }

    // The links from a state on by which others were met, through this one.
    fn way_to(
        &self,
        alloc: Global,
        graph: &Graph<'_>,
        from: u32,
        last: u32,
    ) -> Result<Vec<u32>, AllocError> {
        let mut way = vec![in alloc; last]?;
        let mut link = last;
        for _ in 0..self.by.len() {
            let Some(state) = graph.origin(link) else {
                break;
            };
            if state == from {
                break;
            }
            let Some(by) = self.by.get(state as usize).copied().flatten() else {
                break;
            };
            way.push(by)?;
            link = by;
        }
        way.as_mut_slice().reverse();
        Ok(way)
    }
}
