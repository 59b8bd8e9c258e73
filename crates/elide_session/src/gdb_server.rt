//! A session with gdb: `elide gdb`.
//!
//! [`gdb`] opens, always without labels, and then answers packets. Whether a schedule is asked for is told by the
//! options, and not by its length: one of no steps is one. A fault that ends the session early has the numbers of
//! `debug`'s. What a packet does is `tm_gdb`'s.

ghost use Rattle.std.specs.Prelude.{◌≡◌, None, OnOk, Some, if◌then◌else◌};
ghost use Rattle.elide_session.specs.GdbServed.{IsServed};
ghost use Rattle.tm_gdb.specs.Values.{picks_in};

use crate::opening::{is_scheduled, opened, session_fault};
use elide_args::SessionOptions;
use elide_program::Paths;
use elide_setup::Refusal;
use std::alloc::Global;
use std::sync::Wait;
use text_out::Out;
use tm_debug::In;
use tm_gdb::serve;
use tm_model::Pick;

/// Answers the packets of the input, up to gdb's `detach` or `kill` or the end. The machine is that of the options, and
/// the session can make 1,000,000 steps. A continued run of all cores goes along the schedule of the options, where
/// there is one, even one of no steps.
pub fn gdb<R: Wait, P: Paths, I: In, O: Out>(
    rt: &R,
    alloc: Global,
    options: &SessionOptions<'_>,
    paths: &mut P,
    input: &mut I,
    out: &mut O,
) -> Result<(), Refusal>
    ensures { OnOk result (IsServed (P.content paths.old) options.now
        (I.remaining input.old) (I.remaining input.new) (O.device out.old) (O.device out.new)) }
{
    let opened = opened(alloc, &options.machine, &options.schedule, false, paths)?;
    let plan = asked_for(opened.plan, is_scheduled(&options.schedule));
    match serve(rt, alloc, opened.board, plan, input, out) {
        Ok(_board) => Ok(()),
        Err(fault) => Err(Refusal::Fault(session_fault(&fault))),
    }
}

// A schedule, where it is asked for.
fn asked_for(plan: Vec<Pick>, is_asked: bool) -> Option<Vec<Pick>>
    ensures { picks_in result ≡ (if is_asked then Some plan.items else None) }
{
    if is_asked { Some(plan) } else { None }
}
