//! Options that are misused: a line for each, by its name and the command that it was given to.
//!
//! [`advise_misuse`] comes last, when neither a condition nor a symbol explained it. Of a value the form is told with
//! what was given; of a number first whether it is one, and then its range. Nothing is read here but the options.

use crate::asked::{machine_of, number_text, schedule_of, value_text};
use crate::draws::{advise_events, advise_seed};
use crate::machine::cores_of;
use crate::page::Page;
use elide_args::{ScheduleOptions, Subcommand};
use elide_program::{has_store_buffer, number_of};
use std::fmt;
use std::fmt::Write;
use text_out::Out;

/// Writes how an option is used.
pub fn advise_misuse<O: Out>(
    subcommand: &Subcommand<'_>,
    name: &str,
    page: &mut Page<'_, O>,
) -> fmt::Result {
    match (name, subcommand) {
        ("--steps", other) => match schedule_of(other) {
            Some(schedule) => advise_steps(schedule, page),
            None => Ok(()),
        },
        ("--entry", other) => advise_entry(other, page),
        ("--show", Subcommand::Outcomes(options)) if options.show.is_none() => writeln!(
            page,
            "one of --show, --check, --forbid, --stop and --stuck is wanted"
        ),
        ("--record" | "--output", _) => writeln!(page, "{name} takes another path than FILE"),
        ("--page", other) if has_pending_stores(other) => {
            writeln!(page, "--page goes without --store-buffer")
        }
        ("--page", Subcommand::Outcomes(_)) => writeln!(
            page,
            "--page takes the number of an outcome that is told, from 1 on, and another path than FILE"
        ),
        ("--page", _) => writeln!(
            page,
            "--page takes another path than FILE and that of --record"
        ),
        ("--stop" | "--runs" | "--method" | "--show" | "--dump" | "--core", other) => {
            advise_form(other, name, page)
        }
        ("--note", _) => writeln!(
            page,
            "--note takes STEP:TEXT, a step of the run, or 0 before the first, and what is said there"
        ),
        ("--events", other) => advise_events(other, page),
        ("--seed", other) => advise_seed_or_number(other, name, page),
        ("--code", _) => writeln!(page, "--code goes with --trace"),
        ("--json", Subcommand::Run(_)) => writeln!(page, "--json goes without --code and --why"),
        ("--json", _) => writeln!(page, "--json goes without --why"),
        ("--color", _) => writeln!(page, "--color takes auto, always or never"),
        ("--words", _) => writeln!(page, "--words takes auto, always or never"),
        ("FAULT", other) => advise_unknown(other, page),
        (number, other) => advise_number(other, number, page),
    }
}

// Whether stores may be pending on a subcommand's machine.
fn has_pending_stores(subcommand: &Subcommand<'_>) -> bool {
    match machine_of(subcommand) {
        Some(machine) => has_store_buffer(machine),
        None => false,
    }
}

// How the value of an option is written, and which one was given.
fn advise_form<O: Out>(
    subcommand: &Subcommand<'_>,
    name: &str,
    page: &mut Page<'_, O>,
) -> fmt::Result {
    let form = match (name, subcommand) {
        ("--stop", _) => "#BP, #DE, #UD, #GP, HLT, range, code-store, fetch or not-in-subset",
        ("--runs", _) => "a count K, or A..B with A at most B",
        ("--method", _) => "seen, uniform, bursts, pct or mix",
        ("--core", _) => "numbers of cores, each once, as 0,2",
        ("--dump", _) => {
            "AT:BYTES, as 0x1000:4 or 'count:4'; AT is a sum of numbers and of the program's symbols"
        }
        (_, Subcommand::Outcomes(_)) => "registers of cores and symbols, as 'eax@0 count'",
        _ => "a sum of numbers and of the program's symbols, as 'count' or 'table+8'",
    };
    match value_text(subcommand, name) {
        Some(text) => {
            write!(page, "{name} ")?;
            page.put_shown(text)?;
            writeln!(page, ": it takes {form}")
        }
        None => writeln!(page, "{name} takes {form}"),
    }
}

// That there is no such fault.
fn advise_unknown<O: Out>(subcommand: &Subcommand<'_>, page: &mut Page<'_, O>) -> fmt::Result {
    let text = value_text(subcommand, "FAULT").unwrap_or("");
    write!(page, "no fault has the number or name '")?;
    page.put_shown(text)?;
    writeln!(page, "'; elide explain lists them")
}

// What a seed goes with, or how its number is written.
fn advise_seed_or_number<O: Out>(
    subcommand: &Subcommand<'_>,
    name: &str,
    page: &mut Page<'_, O>,
) -> fmt::Result {
    if advise_seed(subcommand, page)? {
        return Ok(());
    }
    advise_number(subcommand, name, page)
}

// How a number is written.
fn advise_number<O: Out>(
    subcommand: &Subcommand<'_>,
    name: &str,
    page: &mut Page<'_, O>,
) -> fmt::Result {
    let Some(text) = number_text(subcommand, name) else {
        return writeln!(page, "{name} is wanted, with a number");
    };
    if number_of(Some(text), "").is_err() {
        write!(page, "{name}: '")?;
        page.put_shown(text)?;
        return writeln!(page, "' is no number below 4294967296");
    }
    match name {
        "--from" => writeln!(page, "--from {text}: a step of the run, counted from 1"),
        "--to" => writeln!(page, "--to {text}: a step of the run, not before --from"),
        "--jobs" => writeln!(page, "--jobs {text}: 1 to 1024"),
        "--limit" if is_listed(subcommand) => {
            writeln!(page, "--limit goes with --in-turn and --random")
        }
        _ => writeln!(page, "{name} {text}: 1 or more"),
    }
}

// Whether the steps stand in a list.
fn is_listed(subcommand: &Subcommand<'_>) -> bool {
    match schedule_of(subcommand) {
        Some(schedule) => schedule.steps.is_some() || schedule.path.is_some(),
        None => false,
    }
}

// Which of the options of a schedule are given, and what is wrong with a list of steps.
fn advise_steps<O: Out>(schedule: &ScheduleOptions<'_>, page: &mut Page<'_, O>) -> fmt::Result {
    let given = [
        schedule.steps.is_some(),
        schedule.path.is_some(),
        schedule.in_turn,
        schedule.random.is_some(),
    ];
    match (
        given.iter().filter(|is_given| **is_given).count(),
        schedule.steps,
    ) {
        (1, Some(list)) => advise_list(list, page),
        (0, _) => writeln!(
            page,
            "one of --steps, --schedule, --in-turn and --random is wanted"
        ),
        _ => writeln!(
            page,
            "only one of --steps, --schedule, --in-turn and --random is taken"
        ),
    }
}

// What is wrong with a list of steps.
fn advise_list<O: Out>(list: &str, page: &mut Page<'_, O>) -> fmt::Result {
    for (index, character) in list.chars().enumerate() {
        let stands_in_a_step = character.is_ascii_digit()
            || matches!(character, 'i' | 'e' | 's' | 'd');
        if !stands_in_a_step && !character.is_ascii_whitespace() {
            let column = index.saturating_add(1);
            return writeln!(
                page,
                "--steps: '{character}' at column {column}; numbers are separated by spaces"
            );
        }
    }
    writeln!(
        page,
        "--steps takes core numbers of 0 to 255, and i, e, s or d behind those under an event"
    )
}

// What is wrong with a list of entries.
fn advise_entry<O: Out>(subcommand: &Subcommand<'_>, page: &mut Page<'_, O>) -> fmt::Result {
    let Some(machine) = machine_of(subcommand) else {
        return Ok(());
    };
    let list = machine.entry.unwrap_or("");
    let cores = cores_of(machine);
    let count = list.split(',').count();
    if count != 1 && count != cores as usize {
        let noun = if cores == 1 { "core" } else { "cores" };
        return writeln!(page, "--entry: {count} entries for {cores} {noun}");
    }
    page.put_value(
        "--entry",
        list,
        &"an entry is an address or a symbol of the source",
    )
}
