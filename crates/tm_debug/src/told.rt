//! Steps, and their lines: in a spoken session each goes on with what the step did.
//!
//! [`make_step`] looks at the machine before the step and behind it (`tm_trace`), where that is told, and
//! [`write_told`] writes it afterwards: a step whose line cannot be written was made. A step that the board refuses
//! is no step, and its refusal is told by the caller.

ghost use Rattle.std.specs.Prelude.{◌≡◌, ◌↔◌, ◌<◌, ◌≤◌, Err, IfOk, IfSome, None, OnErr, length};
ghost use Rattle.text_out.specs.Writing.{Writes};
ghost use Rattle.tm_hist.specs.Board.{IsFull};
ghost use Rattle.tm_trace.specs.Deeds.{IsBefore, IsDeed};
ghost use Rattle.tm_debug.specs.Session.{IsStep, IsTold, told_line, value_of};

use crate::state::SessionState;
use debug_command::Manner;
use symbols::Symbol;
use text_out::{Out, WriteFault};
use tm_hist::{StepFault, write_outcome};
use tm_model::{Outcome, Pick};
use tm_trace::{Before, Deed, write_step};

/// The outcome of a step, and what it did, where the session tells that.
#[derive(Clone, Copy, PartialEq, Eq, Debug)]
pub struct ToldStep {
    pub outcome: Outcome,
    pub deed: Option<Deed>,
}

/// One step of a pick's core, with what is told of it. Takes no memory.
pub fn make_step(state: &mut SessionState, pick: Pick) -> Result<ToldStep, StepFault>
    ensures none { result ≡ Err StepFault.NoSuchCore ↔ (length state.old.board.program.entries ≤ pick.core) }
    ensures full { result ≡ Err StepFault.LimitReached ↔
        ((pick.core < length state.old.board.program.entries) × IsFull state.old.board) }
    ensures ok { IfOk result (λ told. IsStep (value_of state.old) pick told.outcome (value_of state.new)) }
    ensures told { IfOk result (λ told.
        IsTold state.old.manner state.old.board pick.core told.outcome state.new.board told.deed) }
    ensures err { OnErr result (value_of state.new ≡ value_of state.old) }
{
    match state.manner {
        Manner::Plain => Ok(ToldStep {
            outcome: state.step(pick)?,
            deed: None,
        }),
        Manner::Spoken => {
            let Some(before) = before_step(state, pick.core) else {
                return Err(StepFault::NoSuchCore);
            };
            let outcome = state.step(pick)?;
            Ok(ToldStep {
                outcome,
                deed: Some(deed_behind(state, &before, pick.core, &outcome)),
            })
        }
    }
}

// What is known of a core's next step; none, where there is no such core.
fn before_step(state: &SessionState, core: u8) -> Option<Before>
    ensures none { result ≡ None ↔ (length state.now.board.program.entries ≤ core) }
    ensures before { IfSome result (λ before.
        IsBefore state.now.board.machine state.now.board.program core before) }
{
    if core < state.board.cores() {
        Before::of(state.board.machine(), state.board.program(), core)
    } else {
        None
    }
}

// What the step of a core did, behind it.
fn deed_behind(state: &SessionState, before: &Before, core: u8, outcome: &Outcome) -> Deed
    requires { core < length state.now.board.program.entries }
    ensures { IsDeed before.now state.now.board.machine core outcome.now result }
{
    let _count = state.board.cores();
    before.deed(state.board.machine(), core, outcome)
}

/// Writes the line of a step, which names labels where it tells what the step did.
pub fn write_told<O: Out>(
    labels: &[Symbol],
    core: u8,
    told: &ToldStep,
    out: &mut O,
) -> Result<(), WriteFault>
    ensures { Writes (O.device out.old) (O.device out.new)
        (told_line labels.now core told.now.outcome told.now.deed) result }
{
    match told.deed {
        None => write_outcome(core, &told.outcome, out),
        Some(deed) => write_step(labels, core, &told.outcome, &deed, out),
    }
}
