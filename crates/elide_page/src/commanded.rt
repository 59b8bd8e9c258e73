//! The command that makes a page, as the page tells it, for a reader to copy.
//!
//! [`command_of`] writes it from the options as they were given, [`command_of_picks`] for a schedule that a search
//! found, whose steps then stand in it. Words are quoted as a shell wants them (`elide_shell`). The title, the
//! notes and `--output` are left out.

use elide_args::{MachineOptions, PageOptions};
use elide_shell::{put_machine, put_option, put_path, put_schedule, put_word};
use std::alloc::{AllocError, Global};
use text_out::{Failed, Out, ToVec};
use tm_model::Pick;

/// The command of these options, without its title, its notes and where the page is written.
pub fn command_of(alloc: Global, options: &PageOptions<'_>) -> Result<Vec<u8>, AllocError> {
    let mut out = ToVec::new(Vec::new(alloc));
    match put_command(options, &mut out) {
        Ok(()) => Ok(out.bytes),
        Err(_) => Err(AllocError),
    }
}

/// The command of a schedule of these steps.
pub fn command_of_picks(
    alloc: Global,
    machine: &MachineOptions<'_>,
    picks: &[Pick],
) -> Result<Vec<u8>, AllocError> {
    let mut out = ToVec::new(Vec::new(alloc));
    match put_picks(machine, picks, &mut out) {
        Ok(()) => Ok(out.bytes),
        Err(_) => Err(AllocError),
    }
}

fn put_front<O: Out>(machine: &MachineOptions<'_>, out: &mut O) -> Result<(), Failed> {
    out.put(b"elide page ")?;
    put_path(machine.file, out)?;
    put_machine(machine, out)
}

fn put_picks<O: Out>(
    machine: &MachineOptions<'_>,
    picks: &[Pick],
    out: &mut O,
) -> Result<(), Failed> {
    put_front(machine, out)?;
    put_schedule(None, picks, out)
}

fn put_command<O: Out>(options: &PageOptions<'_>, out: &mut O) -> Result<(), Failed> {
    let schedule = &options.schedule;
    put_front(&options.machine, out)?;
    put_option(" --steps ", schedule.steps, "", out)?;
    put_option(" --schedule ", schedule.path, "", out)?;
    if schedule.in_turn {
        out.put(b" --in-turn")?;
    }
    put_option(" --random ", schedule.random, "", out)?;
    put_option(" --events ", schedule.events, "", out)?;
    put_option(" --seed ", schedule.seed, "", out)?;
    put_option(" --limit ", schedule.limit, "", out)?;
    put_option(" --from ", options.from, "", out)?;
    put_option(" --to ", options.to, "", out)?;
    put_shows(options.machine.shows.as_slice(), out)
}

fn put_shows<O: Out>(shows: &[&str], out: &mut O) -> Result<(), Failed> {
    for sum in shows {
        out.put(b" --show ")?;
        put_word(sum, out)?;
    }
    Ok(())
}
