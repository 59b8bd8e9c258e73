//! What is to be shown or checked, and is not there: the fault says neither what nor by which option.
//!
//! [`advise_range`] names a value where only one was given that can be meant, and else says that something is not
//! there. Which of several it was would have to be read from the program, and is not.

use crate::asked::machine_of;
use crate::machine::{cores_of, memory_of};
use crate::page::Page;
use elide_args::Subcommand;
use std::fmt;
use std::fmt::Write;
use text_out::Out;

/// Writes which value of an option asks for memory or a core that is not there. Of several values the fault does not
/// tell which.
pub fn advise_range<O: Out>(subcommand: &Subcommand<'_>, page: &mut Page<'_, O>) -> fmt::Result {
    let (Some(machine), Some((name, value))) = (machine_of(subcommand), only_asked(subcommand))
    else {
        return writeln!(page, "what is to be shown or checked is not there");
    };
    let cores = cores_of(machine);
    let memory = memory_of(machine);
    write!(page, "{name} ")?;
    page.put_shown(value)?;
    writeln!(page, ": not there with --cores {cores} and --mem {memory}")
}

// The value of such an option, and the option, where there is no other value.
fn only_asked<'s>(subcommand: &'s Subcommand<'_>) -> Option<(&'static str, &'s str)> {
    let machine = machine_of(subcommand)?;
    let mut found = shown_by(subcommand);
    let asked = [
        ("--dump", machine.dumps.as_slice()),
        ("--show", machine.shows.as_slice()),
        ("--check", checks_of(subcommand)),
        ("--forbid", forbids_of(subcommand)),
    ];
    for (name, values) in asked {
        for value in values {
            if found.is_some() {
                return None;
            }
            found = Some((name, *value));
        }
    }
    found
}

// The items of a search of all schedules.
fn shown_by<'s>(subcommand: &'s Subcommand<'_>) -> Option<(&'static str, &'s str)> {
    match subcommand {
        Subcommand::Outcomes(options) => Some(("--show", options.show?)),
        _ => None,
    }
}

fn checks_of<'s, 'a>(subcommand: &'s Subcommand<'a>) -> &'s [&'a str] {
    match subcommand {
        Subcommand::Hunt(options) => options.checks.as_slice(),
        Subcommand::Outcomes(options) => options.checks.as_slice(),
        _ => &[],
    }
}

fn forbids_of<'s, 'a>(subcommand: &'s Subcommand<'a>) -> &'s [&'a str] {
    match subcommand {
        Subcommand::Hunt(options) => options.forbids.as_slice(),
        Subcommand::Outcomes(options) => options.forbids.as_slice(),
        _ => &[],
    }
}
