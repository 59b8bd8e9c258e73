//! The answer to `pending`: the stores that are not in memory yet, of one core or of each.
//!
//! The lines of a core's stores are those behind the state of a run (`tm_hist`). One that has none pending has a line
//! that says so, so that each core that was asked of is told of.

ghost use Rattle.std.specs.Prelude.{◌≡◌, ◌<◌, ◌≤◌, ◌++◌, length, nat_eq};
ghost use Rattle.std.specs.List.{flat_map, range_with_len};
ghost use Rattle.arrayvec.specs.ArrayVec.{array_vec_len};
ghost use Rattle.text_out.specs.Writing.{Writes};
ghost use Rattle.tm_core.specs.Theorem.{pending_at};
ghost use Rattle.tm_debug.specs.Session.{core_named, none_pending, pending_answer, pending_by, pending_lines};
ghost use Rattle.tm_debug.specs.Session.{value_of};

use crate::answer::{core_of, refuse_core};
use crate::state::SessionState;
use text_out::page::push;
use text_out::text_line::{TextLine, push_number};
use text_out::{Out, WriteFault};
use tm_core::Machine;
use tm_hist::write_pending;

/// The stores that are pending of a core, or of each core, in the order of their numbers.
pub fn pending<O: Out>(
    state: &SessionState,
    core: Option<u64>,
    out: &mut O,
) -> Result<(), WriteFault>
    ensures { Writes (O.device out.old) (O.device out.new) (pending_answer (value_of state.now) core) result }
{
    match core {
        Some(core) => pending_of(state, core, out),
        None => write_all(state.board.machine(), state.board.cores(), out),
    }
}

// Those of the core of this number.
fn pending_of<O: Out>(state: &SessionState, core: u64, out: &mut O) -> Result<(), WriteFault>
    ensures { Writes (O.device out.old) (O.device out.new)
        (pending_by (value_of state.now) (core_named (value_of state.now) core)) result }
{
    match core_of(state, core) {
        Some(core) => write_stores(state.board.machine(), core, out),
        None => refuse_core(state, out),
    }
}

// Those of the first so many cores.
fn write_all<O: Out>(machine: &Machine, count: u8, out: &mut O) -> Result<(), WriteFault>
    requires { count ≤ length machine.now.views }
    ensures { Writes (O.device out.old) (O.device out.new)
        (flat_map (pending_lines machine.now) (range_with_len 0 count)) result }
{
    for core in 0..count {
        write_stores(machine, core, out)?;
    }
    Ok(())
}

// Those of a core that the machine has.
fn write_stores<O: Out>(machine: &Machine, core: u8, out: &mut O) -> Result<(), WriteFault>
    requires { core < length machine.now.views }
    ensures { Writes (O.device out.old) (O.device out.new) (pending_lines machine.now core) result }
{
    if has_none(machine, core) {
        write_none(core, out)
    } else {
        write_pending(machine, core, out)
    }
}

// Whether no store of a core is pending.
fn has_none(machine: &Machine, core: u8) -> bool
    requires { core < length machine.now.views }
    ensures { result ≡ nat_eq (length (pending_at machine.now core)) 0 }
{
    machine.pending(core).unwrap().is_empty()
}

// The line that says so.
fn write_none<O: Out>(core: u8, out: &mut O) -> Result<(), WriteFault>
    ensures { Writes (O.device out.old) (O.device out.new) (none_pending core) result }
{
    let mut row = TextLine::new();
    push_none(&mut row, core);
    out.put(row.as_slice())?;
    Ok(())
}

#[tactic(auto, unfolding(crate::specs::Session::none_pending))]
fn push_none(row: &mut TextLine, core: u8)
    requires { array_vec_len row.old ≡ 0 }
    ensures { row.new.items ≡ row.old.items ++ none_pending core }
{
    push(row, b"pending ");
    push_number(row, core);
    push(row, b" -\n");
}
