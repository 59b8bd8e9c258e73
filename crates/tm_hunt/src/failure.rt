//! A run that fails: its picks, the check that it violates, and how many of its steps decide.
//!
//! `attempt` makes a [`Failure`] of a run that was just made, and lets all of its steps decide; of a run at the
//! limit `shortening` says that fewer do. What is printed of it is the commands' to say.

ghost use Rattle.std.specs.Prelude.{◌≤◌, length};

use tm_model::Pick;

/// A run that violates a check.
#[derive(Debug, Drop)]
pub struct Failure {
    /// The picks of its steps: a core each, and the event that aborted its transaction, if any, or that it is a drain.
    pub picks: Vec<Pick>,
    /// The index of the first check that it violates.
    pub check: usize,
    /// How many of its first steps decide. They are all of them, but where a run was shortened that reached the limit
    /// on steps: behind them each core steps in turn then, up to the limit.
    pub front: usize,
    pub ghost within: { front ≤ length picks.items },
}

impl Failure {
    ghost use Rattle.std.specs.Prelude.{◌≡◌};
    ghost use Rattle.tm_hunt.specs.Deciding.{deciding};

    /// The steps that decide.
    pub fn deciding(&self) -> &[Pick]
        ensures { result.now ≡ deciding self.now }
    {
        &self.picks.as_slice()[..self.front]
    }
}
