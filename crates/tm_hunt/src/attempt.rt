//! A run, and whether it failed: [`try_run`].
//!
//! The run is made (`one_run`), and then the checks are asked in their order; a run that violates none has ended or
//! was cut at the limit. Its picks are copied from the history only where it fails, as the board goes on to the
//! next run. [`usual_length`] makes a run that is not judged.

ghost use Rattle.std.specs.Prelude.{◌≡◌, ◌≤◌, IfErr, IfOk};
ghost use Rattle.tm_hunt.specs.declared.attempt.HuntFault.TheVariants.{Board as OfBoard, NoMemory};
ghost use Rattle.tm_hunt.specs.Attempts.{ComesTo, IsAttempt, IsRefusal};
ghost use Rattle.tm_hunt.specs.Hunt.{IsOver, IsTrialOf};
ghost use Rattle.tm_hunt.specs.Runs.{AreStepsOf};

use crate::failure::Failure;
use crate::one_run::{board_of, run};
use crate::source::StepSource;
use crate::trial::Trial;
use std::alloc::{AllocError, Global};
use thiserror::Error;
use tm_check::{first_violated, has_ended};
use tm_hist::{Board, BoardFault};
use tm_pick::Picker;

/// Why a search was not made to its end.
#[derive(Clone, Copy, PartialEq, Eq, Debug, Drop, Error)]
pub enum HuntFault {
    /// A machine was not made.
    #[error("{0}")]
    Board(BoardFault),
    /// There is no memory for a schedule.
    #[error("NoMemory")]
    NoMemory,
}

impl From<BoardFault> for HuntFault {
    ghost from_gives = { λ fault e. e ≡ OfBoard fault };

    fn from(fault: BoardFault) -> HuntFault {
        HuntFault::Board(fault)
    }
}

impl From<AllocError> for HuntFault {
    ghost from_gives = { λ _ e. e ≡ NoMemory };

    fn from(_refused: AllocError) -> HuntFault {
        HuntFault::NoMemory
    }
}

/// What a run came to.
#[derive(Debug, Drop)]
pub enum Attempt {
    /// It violates no check, and each core has stopped.
    Ended,
    /// It violates no check, and reached the limit on steps.
    Cut,
    /// It violates a check.
    Failed(Failure),
}

/// Makes the run whose steps are picked so, on the board of its trial.
pub fn try_run<S: StepSource>(
    alloc: Global,
    trial: &Trial<'_>,
    board: &mut Board,
    source: &mut S,
) -> Result<Attempt, HuntFault>
    requires of_trial { IsTrialOf trial.now board.old }
    ensures of_trial { IsTrialOf trial.now board.new }
    ensures ok { IfOk result (IsAttempt trial.now (AreStepsOf S.picks S.kinds source.old)) }
    ensures err { IfErr result (IsRefusal trial.now) }
{
    run(trial, board, source);
    board.is_run();
    judge(alloc, trial, board)
}

/// How many steps a uniform run takes: the length by which priorities fall.
pub fn usual_length(alloc: Global, trial: &Trial<'_>) -> Result<u32, HuntFault>
    ensures most { IfOk result (λ length. length ≤ trial.now.most) }
    ensures err { IfErr result (IsRefusal trial.now) }
{
    let mut board = board_of(alloc, trial)?;
    run(trial, &mut board, &mut Picker::random(0));
    Ok(u32::try_from(board.made()).unwrap_or(u32::MAX))
}

// What the run of a board came to.
#[tactic(auto, using(crate::proofs::Ending::was_cut))]
fn judge(alloc: Global, trial: &Trial<'_>, board: &Board) -> Result<Attempt, HuntFault>
    requires over { IsOver trial.now board.now }
    ensures ok { IfOk result (ComesTo trial.now board.now) }
    ensures err { IfErr result (IsRefusal trial.now) }
{
    match first_violated(trial.checks, board) {
        Some(check) => {
            let picks = board.history().picks(alloc)?;
            let front = picks.as_slice().len();
            Ok(Attempt::Failed(Failure {
                picks,
                check,
                front,
            }))
        }
        None if has_ended(board) => Ok(Attempt::Ended),
        None => Ok(Attempt::Cut),
    }
}
