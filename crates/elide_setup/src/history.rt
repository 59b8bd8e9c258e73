//! Walks over a board's history: [`walk_history`], by whatever [`StepMaker`] makes the steps again.
//!
//! They go one by one, from the first, since who makes them again asks something of each. The board stays as it is.
//! What a step prints or counts is its maker's own; a machine with the cores of the board's program has the core of
//! each.

ghost use Rattle.std.specs.Prelude.{◌≡◌, IfErr, IfOk, List};
ghost use Rattle.tm_model.specs.Runs.{picks_of};
ghost use Rattle.tm_model.specs.declared.outcome.Outcome.{Outcome};
ghost use Rattle.tm_model.specs.declared.outcome.Pick.{Pick};
ghost use Rattle.elide_setup.specs.Refused.{IsNextMade, IsStepRefused};
ghost use Rattle.elide_setup.specs.Schedules.{picks_made};
ghost use Rattle.elide_setup.specs.Walks.{Leads};

use crate::fault::Refusal;
use crate::walk::{PORTION, StepMaker};
use elide_device::Progress;
use tm_hist::Board;

/// Makes the steps of a board's history again.
pub fn walk_history<S: StepMaker, G: Progress>(
    board: &Board,
    maker: &mut S,
    progress: &mut G,
) -> Result<(), Refusal>
    ensures refused { IfErr result (IsStepRefused S.takes S.refuses (IsNextMade board.now) maker.old) }
    ensures walked { IfOk result (λ _. (made : List (Pick × Outcome)) × (picks_made made ≡ picks_of board.now.history)
        × Leads S.takes maker.old made maker.new) }
{
    let walked = walk_made(board, maker, progress);
    progress.end();
    walked
}

// Without the end of the progress.
fn walk_made<S: StepMaker, G: Progress>(
    board: &Board,
    maker: &mut S,
    progress: &mut G,
) -> Result<(), Refusal>
    ensures refused { IfErr result (IsStepRefused S.takes S.refuses (IsNextMade board.now) maker.old) }
    ensures walked { IfOk result (λ _. (made : List (Pick × Outcome)) × (picks_made made ≡ picks_of board.now.history)
        × Leads S.takes maker.old made maker.new) }
{
    let steps = board.made();
    for index in 0..steps {
        if index % PORTION as u64 == 0 {
            progress.tell(index, steps, "steps");
        }
        maker.make_step(board.pick_at(index as usize).unwrap())?;
    }
    Ok(())
}
