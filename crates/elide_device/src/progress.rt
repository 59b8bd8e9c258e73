//! How far long work is, as the work tells it: [`Progress::tell`] now and then, [`Progress::end`] when it is over. And
//! what a person may want to know of it besides: [`Progress::hint`].
//!
//! Nothing comes back, so that no answer depends on what is told. The lines that a person sees are drawn by `elide`,
//! which hands it in; who shows nothing hands in [`Silent`].

/// A place that is told how far long work is. What it shows of that, and whether anything, is its own: no answer
/// depends on it.
pub trait Progress {
    /// So many of these things are done, of at most so many.
    fn tell(&mut self, done: u64, most: u64, things: &str);

    /// The work has ended.
    fn end(&mut self);

    /// What a person at a terminal may want to know of the work, without an end of line: it goes to no file, and is
    /// part of no answer.
    fn hint(&mut self, line: &str);
}

/// A place that shows nothing.
#[derive(Clone, Copy, PartialEq, Eq)]
pub struct Silent;

impl Progress for Silent {
    fn tell(&mut self, _done: u64, _most: u64, _things: &str) {}

    fn end(&mut self) {}

    fn hint(&mut self, _line: &str) {}
}
