//! A session of the debugger: `elide debug`.
//!
//! [`debug`] opens first, and reads labels only for a session that is spoken, whose answers tell them; then it serves
//! the input to its end. A refusal of the opening comes before a byte is read or written. What commands there are, and
//! what they answer, is `tm_debug`'s.

ghost use Rattle.std.specs.Prelude.{◌≡◌, IfErr, OnOk};
ghost use Rattle.elide_session.specs.DebugRefused.{IsRefused};
ghost use Rattle.elide_session.specs.DebugServed.{IsServed, manner_at};

use crate::opening::{opened, session_fault};
use debug_command::Manner;
use elide_args::SessionOptions;
use elide_device::Terminals;
use elide_program::Paths;
use elide_setup::Refusal;
use std::alloc::Global;
use std::sync::Wait;
use text_out::Out;
use tm_debug::{In, serve_in};

/// Answers the commands of the input. The machine is that of the options, and the session can make 1,000,000 steps.
/// `next` goes along the schedule of the options, where there is one. It is spoken where input and output are a
/// terminal's.
pub fn debug<R: Wait, P: Paths, I: In, O: Out>(
    rt: &R,
    alloc: Global,
    options: &SessionOptions<'_>,
    paths: &mut P,
    input: &mut I,
    out: &mut O,
    terminals: Terminals,
) -> Result<(), Refusal>
    ensures served { OnOk result (IsServed (P.content paths.old) options.now terminals
        (I.remaining input.old) (I.remaining input.new) (O.device out.old) (O.device out.new)) }
    ensures refused { IfErr result (IsRefused (P.content paths.old) options.now
        (I.failed input.old) (I.failed input.new) (O.device out.old) (O.device out.new)) }
{
    let manner = manner_at(terminals);
    let start = opened(
        alloc,
        &options.machine,
        &options.schedule,
        manner == Manner::Spoken,
        paths,
    )?;
    match serve_in(
        rt,
        alloc,
        manner,
        start.plan,
        start.names,
        start.board,
        input,
        out,
    ) {
        Ok(_board) => Ok(()),
        Err(fault) => Err(Refusal::Fault(session_fault(&fault))),
    }
}

// How a session speaks with these devices.
fn manner_at(terminals: Terminals) -> Manner
    ensures { result ≡ manner_at terminals }
{
    if terminals.input && terminals.output {
        Manner::Spoken
    } else {
        Manner::Plain
    }
}
