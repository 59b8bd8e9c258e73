//! Lists of steps, each the number of a core and its outcome.
//!
//! A [`History`] borrows the pairs that a caller has, or those of a board, which are packed (`pair`), and answers
//! alike of both. A list of a caller may be no run: that is found out by [`serial`](crate::serial), not here. The
//! event of a step is known only by an outcome that tells of it.

ghost use Rattle.std.specs.Prelude.{◌≡◌, ◌==◌, [], IfOk, OnOk, length, map};
ghost use Rattle.std.specs.List.{slice_get};
ghost use Rattle.tm_model.specs.Runs.{event_told, picks_of};
ghost use Rattle.tm_hist.specs.History.{pair_of, pairs_in, pairs_of};

use crate::pair::Pair;
use std::alloc::{AllocError, Global};
use tm_model::{Event, Outcome, Pick};

/// A list of steps, which it borrows. Copying it copies no step.
#[derive(Clone, Copy, Debug)]
pub struct History<'a> {
    steps: Steps<'a>,
}

/// How the steps are kept.
#[derive(Clone, Copy, Debug)]
pub enum Steps<'a> {
    /// Those that a caller has.
    Given(&'a [(u8, Outcome)]),
    /// Those of a board.
    Made(&'a [Pair]),
}

impl<'a> History<'a> {
    /// The history of these steps.
    pub fn new(pairs: &'a [(u8, Outcome)]) -> History<'a>
        ensures { pairs_of result ≡ pairs.now }
    {
        History {
            steps: Steps::Given(pairs),
        }
    }

    // The history of a board's steps.
    pub(crate) fn made(pairs: &'a [Pair]) -> History<'a>
        ensures { pairs_of result ≡ map pair_of pairs.now }
    {
        History {
            steps: Steps::Made(pairs),
        }
    }

    // How they are kept.
    pub(crate) fn steps(self) -> Steps<'a>
        ensures { pairs_in result ≡ pairs_of self.entry }
    {
        self.steps
    }

    /// How many steps there are.
    pub fn len(self) -> usize
        ensures { result ≡ length (pairs_of self.entry) }
    {
        match self.steps {
            Steps::Given(pairs) => pairs.len(),
            Steps::Made(pairs) => pairs.len(),
        }
    }

    /// Whether there is none.
    pub fn is_empty(self) -> bool
        ensures { result ≡ (length (pairs_of self.entry) == 0) }
    {
        self.len() == 0
    }

    /// The step at an index, counted from 0, or nothing behind the last.
    pub fn get(self, index: usize) -> Option<(u8, Outcome)>
        ensures { result ≡ slice_get (pairs_of self.entry) index }
    {
        match self.steps {
            Steps::Given(pairs) => pairs.get(index).copied(),
            Steps::Made(pairs) => pairs.get(index).map(|pair| (pair.core, pair.outcome())),
        }
    }

    /// The pick of the step at an index: its core, and the event that its outcome tells of. Nothing behind the last. A
    /// step under an event that aborted nothing tells of none.
    pub fn pick_at(self, index: usize) -> Option<Pick>
        ensures { result ≡ slice_get (picks_of (pairs_of self.entry)) index }
    {
        let (core, outcome) = self.get(index)?;
        Some(Pick {
            core,
            event: event_of(outcome),
        })
    }

    /// The picks of the steps, whose run makes them again: an event that aborted nothing is left out.
    pub fn picks(self, alloc: Global) -> Result<Vec<Pick>, AllocError>
        ensures { IfOk result (λ picks. picks.items ≡ picks_of (pairs_of self.entry)) }
    {
        let mut picks = Vec::with_capacity(alloc, self.len())?;
        self.fill(&mut picks)?;
        Ok(picks)
    }

    /// Puts what [`History::picks`] answers into a list that has none. It takes no memory where there is room.
    pub fn fill(self, picks: &mut Vec<Pick>) -> Result<(), AllocError>
        requires { picks.old.items ≡ [] }
        ensures { OnOk result (picks.new.items ≡ picks_of (pairs_of self.entry)) }
    {
        for index in 0..self.len() {
            picks.push(self.pick_at(index).unwrap())?;
        }
        Ok(())
    }
}

/// The event that an outcome tells of.
pub fn event_of(outcome: Outcome) -> Option<Event>
    ensures { result ≡ event_told outcome }
{
    match outcome {
        Outcome::AbortedBy(interference, _status) => Some(Event::Abort(interference)),
        Outcome::Drained => Some(Event::Drain),
        _ => None,
    }
}
