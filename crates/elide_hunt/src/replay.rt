//! The command that replays a schedule, or makes its run again, in a line or as bytes for an object.
//!
//! The file of `--record` is named where there is one; else the steps are written, up to 1000 of them; else `again`
//! writes the command by the run's number. Handed in are the steps that decide, and no others. Whether the record was
//! written is not asked here: a search whose record fails prints nothing.

ghost use Rattle.std.specs.Prelude.{◌≡◌, IfOk, OnOk};
ghost use Rattle.text_out.specs.Writing.{Wrote};
ghost use Rattle.elide_hunt.specs.Lines.{is_short, replay_command, told_command, told_line};

use crate::again::put_hunt;
use elide_args::HuntOptions;
use elide_shell::{MOST_SHOWN, put_machine, put_path, put_schedule};
use std::alloc::{AllocError, Global};
use text_out::{Failed, Out, ToVec};
use tm_model::Pick;

/// Writes the command that replays the schedule of the run of this number, or makes the run again where its schedule is
/// recorded nowhere and too long to be printed, on a line of its own.
pub fn put_line<O: Out>(
    options: &HuntOptions<'_>,
    run: u32,
    picks: &[Pick],
    out: &mut O,
) -> Result<(), Failed>
    ensures { OnOk result (Wrote (O.device out.old) (O.device out.new) (told_line options.now run picks.now)) }
{
    put_told(options, run, picks, out)?;
    out.put(b"\n")
}

/// The bytes of the command.
pub fn command_bytes(
    alloc: Global,
    options: &HuntOptions<'_>,
    run: u32,
    picks: &[Pick],
) -> Result<Vec<u8>, AllocError>
    ensures { IfOk result (λ bytes. bytes.items ≡ told_command options.now run picks.now) }
{
    let mut out = ToVec::new(Vec::new(alloc));
    match put_told(options, run, picks, &mut out) {
        Ok(()) => Ok(out.bytes),
        Err(_) => Err(AllocError),
    }
}

fn put_told<O: Out>(
    options: &HuntOptions<'_>,
    run: u32,
    picks: &[Pick],
    out: &mut O,
) -> Result<(), Failed>
    ensures { OnOk result (Wrote (O.device out.old) (O.device out.new) (told_command options.now run picks.now)) }
{
    if is_short(options.record, picks) {
        put_command(options, picks, out)
    } else {
        put_hunt(options, run, out)
    }
}

// Whether a schedule is said in a command line, by its path or by its steps.
fn is_short(path: Option<&str>, picks: &[Pick]) -> bool
    ensures { result ≡ is_short path.entry picks.now }
{
    path.is_some() || picks.len() <= MOST_SHOWN
}

fn put_command<O: Out>(options: &HuntOptions<'_>, picks: &[Pick], out: &mut O) -> Result<(), Failed>
    ensures { OnOk result (Wrote (O.device out.old) (O.device out.new) (replay_command options.now picks.now)) }
{
    out.put(b"elide replay ")?;
    put_path(options.machine.file, out)?;
    put_machine(&options.machine, out)?;
    put_schedule(options.record, picks, out)
}
