//! A watch behind the history of a board ([`watched`]), and the reason of the step that would be next
//! ([`reason_of`]).
//!
//! The steps are made once more on a board of their own, the machine asked before each (`asked`), as the board that
//! is given tells only outcomes; it is not stepped. Who makes the steps anyway tells a [`Watch`] of them, and needs
//! nothing of this.

ghost use Rattle.std.specs.Prelude.{◌≡◌, ◌+◌, ◌<◌, [], IfOk, length};
ghost use Rattle.tm_hist.specs.Back.{IsFirst};
ghost use Rattle.tm_hist.specs.Board.{IsNew};
ghost use Rattle.tm_why.specs.History.{IsReasonOf, IsWatchOf};
ghost use Rattle.tm_why.specs.Watched.{IsWatch};

use crate::asked::Asked;
use crate::reason::Reason;
use crate::watch::Watch;
use std::alloc::{AllocError, Global};
use tm_hist::Board;

/// A watch that was told of each step of a board's history. They are made once more on a board of their own, each under
/// the event that its outcome tells of, at the cost of a step each. `AllocError`, where there was no memory for it.
pub fn watched(alloc: Global, board: &Board) -> Result<Watch, AllocError>
    ensures { IfOk result (λ watch. IsWatchOf board.now (length board.now.history) watch) }
{
    // A board that was made has limits within their ranges: what is refused is memory.
    let watch = Watch::new(alloc, board.limits())?;
    match Board::new(alloc, board.program(), board.limits(), board.limit()) {
        Ok(opened) => Ok(follow(board, opened, watch)),
        Err(_) => Err(AllocError),
    }
}

/// Why the next step of a core is an abort, where it is one, if no event comes in its place. The watch was told of the
/// board's whole history.
pub fn reason_of(board: &Board, watch: &Watch, core: u8) -> Option<Reason>
    requires told { IsWatchOf board.now (length board.now.history) watch.now }
    requires exists { core < length board.now.machine.views }
    ensures { IsReasonOf board.now core result }
{
    match Asked::of(board.machine(), core) {
        Ok(asked) => watch.reason(&asked),
        Err(_) => unreachable!(),
    }
}

// Makes the steps of a board's history on a new board, and tells a watch of each that was told of none.
fn follow(board: &Board, opened: Board, watch: Watch) -> Watch
    requires opened { IsNew board.now.program board.now.limits board.now.limit opened }
    requires none { IsWatch watch [] }
    requires most { watch.stores.most ≡ board.now.limits.stores }
    ensures { IsWatchOf board.now (length board.now.history) result }
{
    let mut first = opened;
    let mut watch = watch;
    // Filled anew before each step: its rows are long.
    let mut asked = Asked::nothing();
    'steps: for made in 0..board.made() {
        watch_step(board, made, &mut first, &mut asked, &mut watch);
    }
    watch
}

// Makes the next step of a board's history, and tells a watch of it.
fn watch_step(board: &Board, made: u64, first: &mut Board, asked: &mut Asked, watch: &mut Watch)
    requires within { made < length board.now.history }
    requires so_far { IsFirst board.now made first.old }
    requires told { IsWatchOf board.now made watch.old }
    ensures first { IsFirst board.now (made + 1) first.new }
    ensures told { IsWatchOf board.now (made + 1) watch.new }
{
    // These calls do nothing: their contracts say that the board before the step is a run, on as many cores.
    first.is_run();
    let _made = board.made();
    let _cores = first.cores();
    let Some((core, outcome)) = board.step_at(made as usize) else {
        unreachable!()
    };
    let Ok(()) = asked.anew(first.machine(), core) else {
        unreachable!()
    };
    first.step_again(board, made);
    watch.note(asked, outcome);
}
