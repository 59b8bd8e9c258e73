//! The nodes from which links lead to an end.
//!
//! [`marks_of`] goes from the ends against the links, breadth first, and comes to each node once; links under
//! events count as others do. What is not marked is told by `stuck`, and what need not end of the rest by `cycle`.

ghost use Rattle.std.specs.Prelude.{◌<◌, All, IfOk, length};
ghost use Rattle.tm_outcomes.specs.Links.{AreSources, LiesWithin};
ghost use Rattle.tm_outcomes.specs.Marks.{AreEnds, AreMarks, HasMarked, HasPassed};

use crate::links::{Link, Sources};
use std::alloc::{AllocError, Global};

/// The nodes that are marked so far.
#[derive(Drop)]
pub struct Marks {
    /// Of each node whether it is marked.
    pub marked: Vec<bool>,
    /// Those that are, in the order in which they came to be so.
    pub queue: Vec<u32>,
}

impl Marks {
    // The ends, of so many nodes.
    fn of_ends(alloc: Global, nodes: usize, ends: &[u32]) -> Result<Marks, AllocError>
        requires { All (λ node. node < nodes) ends.now }
        ensures { IfOk result (AreEnds ends.now nodes) }
    {
        let marked = vec![in alloc; false; nodes]?;
        let queue = Vec::new(alloc);
        let mut marks = Marks { marked, queue };
        for node in ends {
            marks.mark(*node)?;
        }
        Ok(marks)
    }

    // Marks a node.
    fn mark(&mut self, node: u32) -> Result<(), AllocError>
        requires { node < length self.old.marked.items }
        ensures { IfOk result (λ _. HasMarked self.old self.new node) }
    {
        if !self.marked[node as usize] {
            self.queue.push(node)?;
            self.marked[node as usize] = true;
        }
        Ok(())
    }

    // Marks the nodes from which a link leads to this one.
    fn pass(&mut self, links: &[Link], sources: &Sources, node: u32) -> Result<(), AllocError>
        requires node { node < length self.old.marked.items }
        requires sources { AreSources links.now (length self.old.marked.items) sources.now }
        requires within { All (LiesWithin (length self.old.marked.items)) links.now }
        ensures { IfOk result (λ _. HasPassed links.now self.old self.new node) }
    {
        let mut next = sources.newest[node as usize];
        'links: while let Some(index) = next {
            let index = index as usize;
            self.mark(links[index].from)?;
            next = sources.older[index];
        }
        Ok(())
    }
}

/// Of each of so many nodes whether links lead from it to one of the ends.
pub fn marks_of(
    alloc: Global,
    links: &[Link],
    nodes: usize,
    ends: &[u32],
) -> Result<Vec<bool>, AllocError>
    requires within { All (LiesWithin nodes) links.now }
    requires ends { All (λ node. node < nodes) ends.now }
    ensures { IfOk result (λ marked. AreMarks links.now ends.now nodes marked.items) }
{
    let sources = Sources::of(alloc, links, nodes)?;
    let mut marks = Marks::of_ends(alloc, nodes, ends)?;
    let mut done = 0;
    'nodes: while done < marks.queue.len() {
        let node = marks.queue[done];
        marks.pass(links, &sources, node)?;
        done += 1;
    }
    let Marks { marked, queue } = marks;
    drop(queue);
    Ok(marked)
}
