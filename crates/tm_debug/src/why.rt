//! The answer to `why`: the reason of a core's next step, or that it is no abort.
//!
//! All steps of the history are made once more for it, on a board of its own, as only that tells who hit whom
//! (`tm_why`); the session's board is not stepped. Where memory is wanting for that, nothing of the answer was
//! written.

ghost use Rattle.std.specs.Prelude.{◌≡◌, ◌++◌};
ghost use Rattle.arrayvec.specs.ArrayVec.{array_vec_len};
ghost use Rattle.std.specs.Fmt.{decimal};
ghost use Rattle.text_out.specs.TextLine.{line_end};
ghost use Rattle.text_out.specs.Writing.{Writes};
ghost use Rattle.tm_debug.specs.Session.{EndsAnswer, WhyAnswer, value_of, why_line};

use crate::answer::{core_of, refuse_core};
use crate::interruption::{Interruption, answer_result};
use crate::state::SessionState;
use itoa::Buffer;
use std::alloc::Global;
use text_out::page::push;
use text_out::text_line::TextLine;
use text_out::{Out, WriteFault};
use tm_why::{Reason, reason_of, watched, write_reason};

/// Tells why the next step of a core is an abort, where it is one, by the steps that were made, which are made once
/// more.
pub fn why<O: Out>(
    alloc: Global,
    state: &SessionState,
    core: u64,
    out: &mut O,
) -> Result<(), Interruption>
    ensures { EndsAnswer (WhyAnswer (value_of state.now) core) (O.device out.old) (O.device out.new)
        (value_of state.now) (value_of state.now) result }
{
    let Some(core) = core_of(state, core) else {
        return answer_result(refuse_core(state, out));
    };
    let watch = watched(alloc, &state.board)?;
    answer_result(tell(core, reason_of(&state.board, &watch, core), out))
}

// The reason, or that there is none.
fn tell<O: Out>(core: u8, reason: Option<Reason>, out: &mut O) -> Result<(), WriteFault>
    ensures { Writes (O.device out.old) (O.device out.new) (why_line core reason) result }
{
    match reason {
        Some(reason) => write_reason(core, &reason, out),
        None => write_none(core, out),
    }
}

fn write_none<O: Out>(core: u8, out: &mut O) -> Result<(), WriteFault>
    ensures { Writes (O.device out.old) (O.device out.new) (why_line core None) result }
{
    let mut row = TextLine::new();
    push_none(&mut row, core);
    out.put(row.as_slice())?;
    Ok(())
}

fn push_none(row: &mut TextLine, core: u8)
    requires { array_vec_len row.old ≡ 0 }
    ensures { row.new.items ≡ row.old.items ++ why_line core None }
{
    push(row, b"core ");
    push(row, Buffer::new().format(core).as_bytes());
    push(row, b": its next step is no abort\n");
}
