//! What a worker tells the world around each of its turns, and may wait for there.
//!
//! [`Gate::before`] and [`Gate::after`] are called without the desk's lock, so that others' turns may come between
//! either and the turn. Workers that make several steps under one lock have no gate: of them a `watch` hears.

use tm_model::Outcome;

/// What hears of each turn of a worker. It is called in the worker's thread, without the desk's lock, so it may wait
/// for another worker.
pub trait Gate: Sync {
    /// Before each turn of this core's worker, which has made so many steps.
    fn before(&self, core: u8, done: u32);

    /// After a turn that made a step.
    fn after(&self, core: u8, outcome: &Outcome);

    /// The stack of this core's thread in bytes, where it is not to be the system's own size. One that is too large
    /// refuses the thread.
    fn stack_bytes(&self, _core: u8) -> Option<usize> {
        None
    }
}
