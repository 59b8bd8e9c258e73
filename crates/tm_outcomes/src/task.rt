//! What all calls of a search read: a [`Task`].
//!
//! It is made once, by `searching`, and lent to each call that makes steps, comes to a node or takes up what is found.
//! What a search changes, its states and its machines, is handed down beside it.

ghost use Rattle.std.specs.Prelude.{◌<◌, ◌^◌};

use crate::trial::Trial;
use std::alloc::Global;

/// What is searched, up to how many states, and where memory comes from.
#[derive(Clone, Copy)]
pub struct Task<'a> {
    /// Gives the memory.
    pub alloc: Global,
    /// What is searched.
    pub trial: Trial<'a>,
    /// The most states, 1 or more.
    pub most: u32,
    // Said since of a number behind a reference it is not known.
    pub ghost small: { most < 2 ^ 32 },
}
