//! The options of a subcommand, by their names, as a fault has no more than such a name.
//!
//! A number is looked for among the options of the machine, then among the subcommand's own, then among those of its
//! schedule; `None` where there is none of this name, or no value was given. Values are handed out as text: what is
//! wrong with them is told by `misuse` and `machine`.

use elide_args::{MachineOptions, ScheduleOptions, Subcommand};

/// The path of the program.
pub fn file_of<'s>(subcommand: &'s Subcommand<'_>) -> Option<&'s str> {
    match subcommand {
        Subcommand::Asm(options) => Some(options.file),
        Subcommand::Dis(options) => Some(options.file),
        other => Some(machine_of(other)?.file),
    }
}

/// The machine of a subcommand that makes one.
pub fn machine_of<'s, 'a>(subcommand: &'s Subcommand<'a>) -> Option<&'s MachineOptions<'a>> {
    match subcommand {
        Subcommand::Run(options) => Some(&options.machine),
        Subcommand::Threads(options) => Some(&options.machine),
        Subcommand::Replay(options) => Some(&options.machine),
        Subcommand::Debug(options) => Some(&options.machine),
        Subcommand::Gdb(options) => Some(&options.machine),
        Subcommand::Hunt(options) => Some(&options.machine),
        Subcommand::Outcomes(options) => Some(&options.machine),
        Subcommand::Stats(options) => Some(&options.machine),
        Subcommand::Draw(options) => Some(&options.machine),
        Subcommand::Page(options) => Some(&options.machine),
        _ => None,
    }
}

/// The schedule of a subcommand that runs one.
pub fn schedule_of<'s, 'a>(subcommand: &'s Subcommand<'a>) -> Option<&'s ScheduleOptions<'a>> {
    match subcommand {
        Subcommand::Run(options) => Some(&options.schedule),
        Subcommand::Replay(options) => Some(&options.schedule),
        Subcommand::Debug(options) => Some(&options.schedule),
        Subcommand::Gdb(options) => Some(&options.schedule),
        Subcommand::Stats(options) => Some(&options.schedule),
        Subcommand::Draw(options) => Some(&options.schedule),
        Subcommand::Page(options) => Some(&options.schedule),
        _ => None,
    }
}

/// The path of `--record`.
pub fn record_of<'s>(subcommand: &'s Subcommand<'_>) -> Option<&'s str> {
    match subcommand {
        Subcommand::Run(options) => options.record,
        Subcommand::Threads(options) => options.record,
        Subcommand::Replay(options) => options.record,
        Subcommand::Hunt(options) => options.record,
        Subcommand::Stats(options) => options.record,
        Subcommand::Draw(options) => options.record,
        Subcommand::Page(options) => options.output,
        _ => None,
    }
}

/// The path of `--page`, beside a search.
pub fn page_of<'s>(subcommand: &'s Subcommand<'_>) -> Option<&'s str> {
    match subcommand {
        Subcommand::Hunt(options) => options.page,
        Subcommand::Outcomes(options) => match options.page.as_slice() {
            [_, path] => Some(*path),
            _ => None,
        },
        _ => None,
    }
}

/// The value of an option that takes a number, where it is given.
pub fn number_text<'s>(subcommand: &'s Subcommand<'_>, name: &str) -> Option<&'s str> {
    let of_machine = match machine_of(subcommand) {
        Some(machine) => match name {
            "--cores" => machine.cores,
            "--mem" => machine.memory,
            "--reads" => machine.reads,
            "--writes" => machine.writes,
            "--store-buffer" => machine.store_buffer,
            _ => None,
        },
        None => None,
    };
    match of_machine {
        Some(text) => Some(text),
        None => own_number_text(subcommand, name),
    }
}

// What [`number_text`] answers of the options that a subcommand has beside those of its machine.
fn own_number_text<'s>(subcommand: &'s Subcommand<'_>, name: &str) -> Option<&'s str> {
    match (subcommand, name) {
        (Subcommand::Threads(options), "--budget") => options.budget,
        (Subcommand::Threads(options), "--burst") => options.burst,
        (Subcommand::Threads(options), "--seed") => options.seed,
        (Subcommand::Hunt(options), "--seed") => options.seed,
        (Subcommand::Hunt(options), "--limit") => options.limit,
        (Subcommand::Hunt(options), "--jobs") => options.jobs,
        (Subcommand::Outcomes(options), "--limit") => options.limit,
        (Subcommand::Draw(options), "--from") => options.from,
        (Subcommand::Draw(options), "--to") => options.to,
        (Subcommand::Page(options), "--from") => options.from,
        (Subcommand::Page(options), "--to") => options.to,
        (other, "--limit") => schedule_of(other)?.limit,
        (other, "--random") => schedule_of(other)?.random,
        (other, "--seed") => schedule_of(other)?.seed,
        _ => None,
    }
}

/// The value of an option that takes no number alone, where one is given, and no other of the same name.
pub fn value_text<'s>(subcommand: &'s Subcommand<'_>, name: &str) -> Option<&'s str> {
    match (subcommand, name) {
        (Subcommand::Hunt(options), "--runs") => options.runs,
        (Subcommand::Hunt(options), "--method") => options.method,
        (Subcommand::Hunt(options), "--stop") => only(options.stops.as_slice()),
        (Subcommand::Outcomes(options), "--show") => options.show,
        (Subcommand::Draw(options), "--core") => options.cores,
        (Subcommand::Explain(options), "FAULT") => options.fault,
        (other, "--dump") => only(machine_of(other)?.dumps.as_slice()),
        (other, "--show") => only(machine_of(other)?.shows.as_slice()),
        _ => None,
    }
}

// The one of a list that has no other.
fn only<'a>(texts: &[&'a str]) -> Option<&'a str> {
    match texts {
        [text] => Some(*text),
        _ => None,
    }
}
