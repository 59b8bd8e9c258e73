//! Steps of a history, made once more: one by [`Board::step_again`], the first of them by [`first_steps`].
//!
//! A second board of the same program and limits is opened, and its steps are made one by one, each under the event
//! that its outcome tells of. The board that is given stays as it is. The outcomes are not compared with those of
//! the history: both boards are runs of the same steps ([`Board::is_run`]).

ghost use Rattle.std.specs.Prelude.{◌≡◌, ◌↔◌, ◌+◌, ◌<◌, ◌≤◌, Err, IfOk, false, length, true};
ghost use Rattle.tm_core.specs.Machine.{bad_limits};
ghost use Rattle.tm_hist.specs.Back.{IsFirst};
ghost use Rattle.tm_hist.specs.Board.{IsNew, bad_limit};

use crate::board::{Board, BoardFault};
use std::alloc::Global;

/// A board of the same program and limits after the first so many steps of a board's history, all of them where there
/// are fewer. The steps are made once more, each under the event that its outcome tells of, at the cost of a step each.
///
/// The faults are those of [`Board::new`].
pub fn first_steps(alloc: Global, board: &Board, count: u64) -> Result<Board, BoardFault>
    ensures limit { result ≡ Err BoardFault.BadLimit ↔ (bad_limit board.now.limit ≡ true) }
    ensures limits { result ≡ Err BoardFault.BadLimits ↔
        ((bad_limit board.now.limit ≡ false) × (bad_limits board.now.limits ≡ true)) }
    ensures ok { IfOk result (λ first. IsFirst board.now count first) }
{
    let mut first = Board::new(alloc, board.program(), board.limits(), board.limit())?;
    follow(board, count.min(board.made()), &mut first);
    Ok(first)
}

// Makes the first so many steps of a board's history.
fn follow(board: &Board, count: u64, first: &mut Board)
    requires within { count ≤ length board.now.history }
    requires new { IsNew board.now.program board.now.limits board.now.limit first.old }
    ensures { IsFirst board.now count first.new }
{
    'steps: for made in 0..count {
        first.step_again(board, made);
    }
}

impl Board {
    /// The step of another board's history that is behind so many, all of which this board has made: made once more,
    /// under the event that its outcome tells of. Takes no memory.
    pub fn step_again(&mut self, whole: &Board, made: u64)
        requires within { made < length whole.now.history }
        requires so_far { IsFirst whole.now made self.old }
        ensures { IsFirst whole.now (made + 1) self.new }
    {
        // Neither call does anything: their contracts say that the step that follows is owed, and that it has room.
        whole.is_run();
        let _made = whole.made();
        let Some(pick) = whole.pick_at(made as usize) else {
            unreachable!()
        };
        let Ok(_outcome) = self.step_by(pick) else {
            unreachable!()
        };
    }
}
