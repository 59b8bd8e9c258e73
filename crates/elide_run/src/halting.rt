//! Cores that have not stopped at the end: what `--expect-halt` adds below the state.
//!
//! [`ending_of`] asks each core, writes a line for each that runs on, and answers whether there was one; the exit
//! status is made of that above. The run is over by then. In an object they are a list, for which `object` asks
//! [`has_stopped`].

ghost use Rattle.std.specs.Prelude.{◌≡◌, ◌++◌, ◌<◌, IfErr, IfOk, length};
ghost use Rattle.arrayvec.specs.ArrayVec.{array_vec_len};
ghost use Rattle.text_out.specs.Writing.{Wrote, Writes};
ghost use Rattle.elide_setup.specs.Refused.{IsUnwritten};
ghost use Rattle.tm_core.specs.Theorem.{view_at};
ghost use Rattle.elide_run.specs.Halting.{halt_ending, halt_lines, is_stopped, running_line};

use elide_setup::Refusal;
use text_out::page::{push, push_eight};
use text_out::text_line::{TextLine, push_number};
use text_out::{Out, WriteFault};
use tm_core::Machine;
use tm_model::CoreState;

/// What a run came to.
#[derive(Clone, Copy, PartialEq, Eq, Debug)]
pub enum Ending {
    /// What was asked.
    AsAsked,
    /// A core has not stopped, and it was expected to.
    RunsOn,
}

/// Prints a line for each core that has not stopped, with the address at which it is.
pub fn ending_of<O: Out>(machine: &Machine, out: &mut O) -> Result<Ending, Refusal>
    ensures unwritten { IfErr result IsUnwritten }
    ensures told { IfOk result (λ ending. (ending ≡ halt_ending machine.now)
        × Wrote (O.device out.old) (O.device out.new) (halt_lines machine.now)) }
{
    let mut ending = Ending::AsAsked;
    for core in 0..machine.cores() {
        if !has_stopped(machine, core) {
            write_running(machine, core, out)?;
            ending = Ending::RunsOn;
        }
    }
    Ok(ending)
}

/// Whether a core that the machine has stopped.
pub fn has_stopped(machine: &Machine, core: u8) -> bool
    requires { core < length machine.now.views }
    ensures { result ≡ is_stopped machine.now core }
{
    matches!(machine.state(core), Ok(CoreState::Stopped(_)))
}

// Writes the line of a core that the machine has, and that has not stopped.
fn write_running<O: Out>(machine: &Machine, core: u8, out: &mut O) -> Result<(), WriteFault>
    requires { core < length machine.now.views }
    ensures { Writes (O.device out.old) (O.device out.new)
        (running_line core (view_at machine.now core).regs.eip) result }
{
    let mut row = TextLine::new();
    let regs = machine.regs(core).unwrap();
    push_running(&mut row, core, regs.eip);
    out.put(row.as_slice())?;
    Ok(())
}

#[tactic(auto, unfolding(crate::specs::Halting::running_line))]
fn push_running(row: &mut TextLine, core: u8, eip: u32)
    requires { array_vec_len row.old ≡ 0 }
    ensures { row.new.items ≡ row.old.items ++ running_line core eip }
{
    push(row, b"core ");
    push_number(row, core);
    push(row, b" has not stopped: eip=");
    push_eight(row, eip);
    push(row, b"\n");
}
