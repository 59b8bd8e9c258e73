//! Steps of a run, round by round or along the plan: [`run`].
//!
//! The count is tested first, and then before each step whether the run ends there (`state`). Each step's line is
//! written before the next step is made. Why a run ended before its count is told by `answer`; a run that made all
//! its steps says no more.

ghost use Rattle.std.specs.Prelude.{◌≡◌, ◌<◌, ◌≤◌, List, ℕ, OnErr, OnOk, length};
ghost use Rattle.text_out.specs.Writing.{Wrote};
ghost use Rattle.tm_hist.specs.Board.{IsFull};
ghost use Rattle.tm_debug.specs.Session.{GoAnswer, RunAnswer, RunAnswerBroken, RunBroken, RunWhole, TellsAnswer};
ghost use Rattle.tm_debug.specs.Session.{value_of};

use crate::answer::end_run;
use crate::state::{RunCheck, SessionState, Way};
use crate::told::{make_step, write_told};
use debug_command::{CommandRefusal, Range, refuse};
use text_out::{Out, WriteFault};
use tm_model::Pick;

// The step of a pick whose turn it is.
fn go<O: Out>(state: &mut SessionState, pick: Pick, out: &mut O) -> Result<(), WriteFault>
    requires exists { pick.core < length state.old.board.program.entries }
    requires room { IsFull state.old.board → ⊥ }
    ensures { TellsAnswer (GoAnswer (value_of state.old) pick) (O.device out.old) (O.device out.new)
        (value_of state.new) result }
{
    match make_step(state, pick) {
        Ok(told) => write_told(state.told_labels(), pick.core, &told, out),
        Err(_) => unreachable!(),
    }
}

fn run_steps<O: Out>(
    state: &mut SessionState,
    way: Way,
    count: u64,
    out: &mut O,
) -> Result<(), WriteFault>
    ensures ok { OnOk result ((text : List ℕ) × RunWhole way count (value_of state.old) text (value_of state.new)
        × Wrote (O.device out.old) (O.device out.new) text) }
    ensures err { OnErr result (RunBroken way count (value_of state.old) (O.device out.old) (O.device out.new)
        (value_of state.new)) }
{
    'steps: for done in 0..count {
        let check = state.check_run(way, done == 0);
        match check {
            RunCheck::Go(pick) => go(state, pick, out)?,
            RunCheck::AllStopped
            | RunCheck::PlanEnded
            | RunCheck::Full
            | RunCheck::NoCore(_)
            | RunCheck::AtBreakpoint(_, _) => return end_run(state, check, out),
        }
    }
    Ok(())
}

/// So many steps, of the cores in turn that have not stopped or by the picks of the plan, or fewer where a test ends
/// the run.
pub fn run<O: Out>(
    state: &mut SessionState,
    way: Way,
    count: u64,
    out: &mut O,
) -> Result<(), WriteFault>
    ensures ok { OnOk result ((text : List ℕ) × RunAnswer way count (value_of state.old) text (value_of state.new)
        × Wrote (O.device out.old) (O.device out.new) text) }
    ensures err { OnErr result (RunAnswerBroken way count (value_of state.old) (O.device out.old) (O.device out.new)
        (value_of state.new)) }
{
    if (1..=100_000).contains(&count) {
        run_steps(state, way, count, out)
    } else {
        refuse(state.manner, CommandRefusal::OutOfRange(Range::Steps), out)
    }
}
