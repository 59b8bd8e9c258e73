//! How far a search is, for whoever wants to hear it.
//!
//! [`Watching::at`] is called before a state is gone on from, at the first and then at each 256th, and answers
//! nothing. How it is shown to a person is the command's to say.

/// A place that is told how far a search is. What it makes of that is its own: no answer depends on it.
pub trait Watching {
    /// So many states are found, of which so many are followed. It is called each so many states, from the first on.
    fn at(&mut self, found: u32, followed: u32);
}

/// A place that makes nothing of it.
#[derive(Clone, Copy, PartialEq, Eq, Debug)]
pub struct Unwatched;

impl Watching for Unwatched {
    fn at(&mut self, _found: u32, _followed: u32) {}
}
