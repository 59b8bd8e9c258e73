//! The states from which no schedule leads to an end.
//!
//! [`stuck_of`] is called once a search is over that was not cut, with the marks of all nodes (`marks`), counts
//! those without one, and tells the schedule of the first. No step is made for it.

ghost use Rattle.std.specs.Prelude.{◌≡◌, ◌<◌, ◌≤◌, ◌^◌, ℕ, IfNone, IfOk, IfSome, length};
ghost use Rattle.tm_outcomes.specs.Marks.{IsMarked, unmarked};
ghost use Rattle.tm_outcomes.specs.Nodes.{HaveSchedules};
ghost use Rattle.tm_outcomes.specs.Searching.{TellsWayless};
ghost use Rattle.tm_outcomes.specs.declared.trial.Trial.{Trial};

use crate::nodes::{Node, schedule_of};
use std::alloc::{AllocError, Global};
use tm_model::Pick;

/// The states of a search from which no schedule leads to one where each core has stopped.
#[derive(Debug, Drop)]
pub struct Stuck {
    /// How many there are, 1 or more.
    pub states: u32,
    /// The steps of a schedule that leads to one: one with the fewest steps that are followed.
    pub schedule: Vec<Pick>,
}

// The first node that is not marked.
fn first_unmarked(marked: &[bool]) -> Option<usize>
    ensures some { IfSome result (λ node. (node < length marked.now) × ¬ IsMarked marked.now node) }
    ensures first { IfSome result (λ node. (other : ℕ) → other < node → IsMarked marked.now other) }
    ensures none { IfNone result ((node : ℕ) → node < length marked.now → IsMarked marked.now node) }
{
    for node in 0..marked.len() {
        if !marked[node] {
            return Some(node);
        }
    }
    None
}

// How many are not marked.
fn count_unmarked(marked: &[bool]) -> usize
    ensures count { result ≡ unmarked marked.now }
    ensures few { result ≤ length marked.now }
{
    let mut left = marked;
    let mut count = 0;
    'nodes: while let Some((is_marked, behind)) = left.split_first() {
        if !*is_marked {
            count += 1;
        }
        left = behind;
    }
    count
}

/// The nodes of a search that is over from which no link leads on to one of the ends: those that are not marked.
pub fn stuck_of(alloc: Global, nodes: &[Node], marked: &[bool]) -> Result<Option<Stuck>, AllocError>
    requires few { length nodes.now < 2 ^ 32 }
    requires tree { (trial : Trial) × HaveSchedules trial nodes.now }
    requires marked { length marked.now ≡ length nodes.now }
    ensures { IfOk result (TellsWayless nodes.now marked.now) }
{
    let Some(first) = first_unmarked(marked) else {
        return Ok(None);
    };
    let states = count_unmarked(marked) as u32;
    let schedule = schedule_of(alloc, nodes, first)?;
    Ok(Some(Stuck { states, schedule }))
}
