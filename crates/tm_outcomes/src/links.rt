//! The steps from one state to another, and those that lead to each.
//!
//! A [`Link`] is added for each step that is followed, to a new state or a known one (`searching`). [`Sources`] are
//! made of them all when the search is over, for `marks`, as two lists of numbers in place of a list for each node.

ghost use Rattle.std.specs.Prelude.{◌<◌, All, IfOk, length};
ghost use Rattle.std.specs.Prelude.{Some};
ghost use Rattle.tm_outcomes.specs.Links.{AreSources, HasSource, LiesWithin};

use std::alloc::{AllocError, Global};

/// That a step leads from one state to another, by the numbers of their nodes.
#[derive(Clone, Copy, Debug)]
pub struct Link {
    /// The node before the step.
    pub from: u32,
    /// The node after it.
    pub to: u32,
}

/// Links in the reverse direction.
#[derive(Drop)]
pub struct Sources {
    /// Of each node the last link that leads to it.
    pub newest: Vec<Option<u32>>,
    /// Of each link the one before it that leads to the same node.
    pub older: Vec<Option<u32>>,
}

impl Sources {
    /// The links that lead to each of so many nodes. More than 32 bits count, at 8 bytes each, are refused as memory
    /// is.
    pub fn of(alloc: Global, links: &[Link], nodes: usize) -> Result<Sources, AllocError>
        requires { All (LiesWithin nodes) links.now }
        ensures { IfOk result (AreSources links.now nodes) }
    {
        if links.len() > u32::MAX as usize {
            return Err(AllocError);
        }
        let newest = vec![in alloc; None; nodes]?;
        let older = Vec::with_capacity(alloc, links.len())?;
        let mut sources = Sources { newest, older };
        for index in 0..links.len() {
            sources.add(links[index].to, index as u32)?;
        }
        Ok(sources)
    }

    // Takes up the next link, which leads to this node.
    fn add(&mut self, to: u32, index: u32) -> Result<(), AllocError>
        requires { to < length self.old.newest.items }
        ensures { IfOk result (λ _. HasSource self.old self.new to index) }
    {
        let at = to as usize;
        self.older.push(self.newest[at])?;
        self.newest[at] = Some(index);
        Ok(())
    }
}
