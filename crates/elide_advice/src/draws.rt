//! What is said of events that are drawn, and misused: which forms `--events` has, and when `--seed` is taken.
//!
//! [`advise_events`] tells a command's own forms, but first that the steps are not drawn, where they are not.
//! [`advise_seed`] answers whether it has said something: if not, `misuse` goes on with the number.

use crate::asked::schedule_of;
use crate::page::Page;
use elide_args::Subcommand;
use std::fmt;
use std::fmt::Write;
use text_out::Out;

/// Writes what `--events` takes.
pub fn advise_events<O: Out>(subcommand: &Subcommand<'_>, page: &mut Page<'_, O>) -> fmt::Result {
    if matches!(subcommand, Subcommand::Outcomes(_)) {
        return writeln!(
            page,
            "--events takes always, or of interrupt, eviction and snoop each at most once, as interrupt,snoop"
        );
    }
    if !is_drawn(subcommand) {
        return writeln!(page, "--events goes with --in-turn and --random");
    }
    let draw = if matches!(subcommand, Subcommand::Hunt(_)) {
        "draw, "
    } else {
        ""
    };
    writeln!(
        page,
        "--events takes {draw}1, or 1/N with N of 1 to 65536, and behind it kinds, as 1/8 or 1/64:interrupt,eviction,snoop"
    )
}

/// Writes when `--seed` is taken. False, where it is, so that the number is at fault.
pub fn advise_seed<O: Out>(
    subcommand: &Subcommand<'_>,
    page: &mut Page<'_, O>,
) -> Result<bool, fmt::Error> {
    if schedule_of(subcommand).is_some_and(|schedule| schedule.random.is_some()) {
        writeln!(
            page,
            "--seed goes with --in-turn: the seed of --random draws the events, too"
        )?;
        return Ok(true);
    }
    if has_no_events(subcommand) {
        writeln!(page, "--seed goes with --events")?;
        return Ok(true);
    }
    Ok(false)
}

// Whether the steps are drawn, as those of each command are that has no schedule.
fn is_drawn(subcommand: &Subcommand<'_>) -> bool {
    match schedule_of(subcommand) {
        Some(schedule) => schedule.in_turn || schedule.random.is_some(),
        None => true,
    }
}

// Whether a command that could draw events is not asked to.
fn has_no_events(subcommand: &Subcommand<'_>) -> bool {
    match subcommand {
        Subcommand::Threads(options) => options.events.is_none(),
        other => match schedule_of(other) {
            Some(schedule) => schedule.events.is_none(),
            None => false,
        },
    }
}
