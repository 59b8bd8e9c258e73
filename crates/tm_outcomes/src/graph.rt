//! The links of a search, by the state from which they lead, with the cores whose steps they are.
//!
//! `components` and `laps` go along them by [`Graph::target`], which leaves out steps under events that need not
//! come. `marks`, which asks whether an end can be reached at all, does not come here, and goes by all links.

use crate::links::Link;
use std::alloc::{AllocError, Global};

/// The links of a search that is over: they stand in the order of the states from which they lead, and each state has
/// one. Nothing is promised of what is found in it: a cycle is told where its steps were made.
#[derive(Drop)]
pub struct Graph<'a> {
    /// The links.
    pub links: &'a [Link],
    /// Of each link the core whose step it is.
    pub cores: &'a [u8],
    // Of each state the number of its first link.
    starts: Vec<u32>,
}

impl<'a> Graph<'a> {
    /// That of these links. More than 32 bits count are refused as memory is.
    pub fn of(alloc: Global, links: &'a [Link], cores: &'a [u8]) -> Result<Graph<'a>, AllocError> {
        if links.len() > u32::MAX as usize {
            return Err(AllocError);
        }
        let mut starts = Vec::new(alloc);
        for index in 0..links.len() {
            if links[index].from as usize == starts.len() {
                starts.push(index as u32)?;
            }
        }
        Ok(Graph {
            links,
            cores,
            starts,
        })
    }

    /// How many states have a link.
    pub fn states(&self) -> usize {
        self.starts.len()
    }

    /// The number of a state's first link, and of the first one behind its last.
    pub fn span(&self, state: u32) -> (u32, u32) {
        let state = state as usize;
        let start = self.start(state);
        (start, self.start(state.saturating_add(1)))
    }

    // The number of the first link of a state, or how many there are.
    fn start(&self, state: usize) -> u32 {
        match self.starts.get(state) {
            Some(start) => *start,
            None => u32::try_from(self.links.len()).unwrap_or(u32::MAX),
        }
    }

    /// The state to which a link leads. None where there is no such link, and where it is a step under an event that
    /// need not come: events come from outside, and none comes for ever.
    pub fn target(&self, link: u32) -> Option<u32> {
        let index = link as usize;
        if self.is_forced(index) {
            return None;
        }
        match self.links.get(index) {
            Some(link) => Some(link.to),
            None => None,
        }
    }

    // Whether a link is a step under an event that need not come: such links stand behind that of the same step under
    // none.
    fn is_forced(&self, index: usize) -> bool {
        let (Some(link), Some(before)) = (
            self.links.get(index),
            self.links.get(index.wrapping_sub(1)),
        ) else {
            return false;
        };
        link.from == before.from && self.cores.get(index) == self.cores.get(index.wrapping_sub(1))
    }

    /// The state from which a link leads.
    pub fn origin(&self, link: u32) -> Option<u32> {
        match self.links.get(link as usize) {
            Some(link) => Some(link.from),
            None => None,
        }
    }

    /// The core whose step a link is.
    pub fn core(&self, link: u32) -> Option<u8> {
        self.cores.get(link as usize).copied()
    }
}
