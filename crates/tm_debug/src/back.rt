//! Steps that are taken back: [`back`].
//!
//! The steps before them are made once more on a board of its own (`tm_hist`), and that takes the place of the
//! session's when it is there: where memory is refused nothing has changed. Whose turn it is then follows from the
//! history that is left. Breakpoints stop nothing on the way.

ghost use Rattle.std.specs.Prelude.{◌≡◌, ◌≤◌, OnErr, OnOk, length};
ghost use Rattle.text_out.specs.Writing.{Writes};
ghost use Rattle.tm_debug.specs.Session.{BackAnswer, EndsAnswer, IsBack, made_line, next_behind, value_of};

use crate::interruption::{Interruption, answer_result};
use crate::state::SessionState;
use debug_command::{CommandRefusal, Range, refuse};
use itoa::Buffer;
use std::alloc::{AllocError, Global};
use text_out::page::push;
use text_out::text_line::TextLine;
use text_out::{Out, WriteFault};
use tm_hist::{Board, first_steps};

/// The number behind that of the core that was stepped last.
pub fn next_behind(board: &Board) -> u8
    ensures { result ≡ next_behind board.now.history }
{
    let history = board.history();
    match history.get(history.len().saturating_sub(1)) {
        Some((core, _outcome)) => core.wrapping_add(1),
        None => 0,
    }
}

// Takes the last so many steps back. Where there is no memory for the board before them, nothing changes.
fn take_back(alloc: Global, state: &mut SessionState, count: u64) -> Result<(), AllocError>
    requires { count ≤ length state.old.board.history }
    ensures ok { OnOk result (IsBack (value_of state.old) count (value_of state.new)) }
    ensures err { OnErr result (value_of state.new ≡ value_of state.old) }
{
    let left = state.board.made() - count;
    // A board that was made has limits within their ranges: what is refused is memory.
    let Ok(first) = first_steps(alloc, &state.board, left) else {
        return Err(AllocError);
    };
    state.next = next_behind(&first);
    state.board = first;
    Ok(())
}

fn write_made<O: Out>(made: u64, out: &mut O) -> Result<(), WriteFault>
    ensures { Writes (O.device out.old) (O.device out.new) (made_line made) result }
{
    let mut row = TextLine::new();
    push(&mut row, b"at step ");
    push(&mut row, Buffer::new().format(made).as_bytes());
    push(&mut row, b"\n");
    out.put(row.as_slice())?;
    Ok(())
}

/// Takes the last so many steps back, and tells how many are made then.
pub fn back<O: Out>(
    alloc: Global,
    state: &mut SessionState,
    count: u64,
    out: &mut O,
) -> Result<(), Interruption>
    ensures { EndsAnswer (BackAnswer (value_of state.old) count) (O.device out.old) (O.device out.new)
        (value_of state.old) (value_of state.new) result }
{
    let made = state.board.made();
    if count < 1 || count > made {
        return answer_result(refuse(state.manner, CommandRefusal::OutOfRange(Range::Made), out));
    }
    take_back(alloc, state, count)?;
    answer_result(write_made(made - count, out))
}
