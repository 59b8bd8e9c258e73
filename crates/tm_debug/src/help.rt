//! The answer to `help`: a line for each command, the same in each manner.
//!
//! How a command is written is read by `debug_command`, and what it may be refused for is told when it is: here
//! stands constant text.

ghost use Rattle.std.specs.Prelude.{◌≡◌};
ghost use Rattle.text_out.specs.Writing.{Writes};
ghost use Rattle.tm_debug.specs.Help.{help_text};

use text_out::{Out, WriteFault};

// The commands, a line each.
#[tactic(auto, unfolding(crate::specs::Help::help_text))]
fn lines() -> &'static [u8]
    ensures { result.now ≡ help_text }
{
    b"\
step C     one step of core C; Ci, Ce, Cs, Cd: interrupt, eviction, snoop, drain
run N      1 to 100000 steps, of each core in turn
next N     the next 1 to 100000 steps of the schedule
back N     takes the last N steps back
break A    runs stop before the instruction at address A
clear A    they no longer do
regs C     the state and the registers of core C
mem A N    1 to 256 bytes of memory, from address A on
sets C     the lines that core C has read and written in its transaction
why C      why the next step of core C is an abort, if it is one
pending C  the stores of core C that are not in memory yet; of all cores without C
list A N   1 to 64 lines of the code, from address A on
help       these lines
quit       ends the session
"
}

/// Tells the commands.
pub fn help<O: Out>(out: &mut O) -> Result<(), WriteFault>
    ensures { Writes (O.device out.old) (O.device out.new) help_text result }
{
    out.put(lines())?;
    Ok(())
}
