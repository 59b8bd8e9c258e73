//! Runs by their numbers, one after another, until one fails: [`first_failing`].
//!
//! All are made on one board. The run of a number is a function of the plan and the number, so that a search may be
//! parted among callers by numbers; it is picked by a [`RunSource`] and judged by `attempt`. A run that is found is
//! not made shorter here, but by `shortening`.

ghost use Rattle.std.specs.Prelude.{IfErr, IfOk};
ghost use Rattle.tm_hunt.specs.Attempts.{IsAttempt, IsRefusal, IsSearch};
ghost use Rattle.tm_hunt.specs.Hunt.{IsTrialOf};
ghost use Rattle.tm_hunt.specs.Runs.{IsOfRun};

use crate::attempt::{Attempt, HuntFault, try_run};
use crate::failure::Failure;
use crate::one_run::board_of;
use crate::source::RunSource;
use crate::trial::Trial;
use std::alloc::Global;
use tm_hist::Board;
use tm_pick::Plan;

/// A run that was found to fail.
#[derive(Debug, Drop)]
pub struct Found {
    /// The run's number.
    pub run: u32,
    /// The run.
    pub failure: Failure,
}

/// What a search came to.
#[derive(Debug, Drop)]
pub struct Search {
    /// The first run that failed, if any.
    pub found: Option<Found>,
    /// How many runs before it passed in which each core stopped.
    pub ended: u32,
    /// How many runs before it passed that reached the limit on steps.
    pub cut: u32,
}

/// Makes the runs of these numbers by a plan, from the first one up to the end, until one violates a check. They come
/// under the events of the plan, and under none where it has none; where stores may be pending, each draws which of its
/// steps are drains.
pub fn first_failing<S: RunSource>(
    alloc: Global,
    trial: &Trial<'_>,
    runs: &S,
    plan: Plan,
    first: u32,
    end: u32,
) -> Result<Search, HuntFault>
    ensures ok { IfOk result (IsSearch trial.now (IsOfRun S.begins S.Steps.picks plan) first end) }
    ensures err { IfErr result (IsRefusal trial.now) }
{
    let mut board = board_of(alloc, trial)?;
    let mut ended = 0;
    let mut cut = 0;
    'runs: for run in first..end {
        match run_of(alloc, trial, &mut board, runs, plan, run)? {
            Attempt::Ended => ended += 1,
            Attempt::Cut => cut += 1,
            Attempt::Failed(failure) => {
                return Ok(Search {
                    found: Some(Found { run, failure }),
                    ended,
                    cut,
                });
            }
        }
    }
    Ok(Search {
        found: None,
        ended,
        cut,
    })
}

// Makes the run of this number, on the board of its trial.
fn run_of<S: RunSource>(
    alloc: Global,
    trial: &Trial<'_>,
    board: &mut Board,
    runs: &S,
    plan: Plan,
    number: u32,
) -> Result<Attempt, HuntFault>
    requires of_trial { IsTrialOf trial.now board.old }
    ensures of_trial { IsTrialOf trial.now board.new }
    ensures ok { IfOk result (IsAttempt trial.now (IsOfRun S.begins S.Steps.picks plan number)) }
    ensures err { IfErr result (IsRefusal trial.now) }
{
    let mut steps = runs.run(plan, number, trial.program.cores(), trial.limits.stores);
    try_run(alloc, trial, board, &mut steps)
}
