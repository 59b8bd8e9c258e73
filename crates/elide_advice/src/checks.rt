//! Conditions that cannot be read: which words, where they stand, and what is wanted there.
//!
//! [`asked_by`] knows the commands that take conditions. [`advise_condition`] reads FILE again, as words are symbols of
//! it, and asks `elide_checks` for the first words at fault. A word that is no symbol is told before the form. Where
//! all can be read, it is something else that is wanted, and said without a place.

use crate::page::Page;
use crate::unknown::{advise_unknown, unknown_in};
use elide_args::Subcommand;
use elide_checks::{Misread, Wanted, first_misread};
use elide_program::{MOST_BYTES, Paths, ProgramFile};
use std::alloc::Global;
use std::fmt;
use std::fmt::Write;
use text_out::Out;

/// What is asked of a search by `--check` or `--forbid`.
#[derive(Clone, Copy)]
pub struct Asked<'s, 'a> {
    /// The path of the program.
    file: &'s str,
    /// The values of the option.
    conditions: &'s [&'a str],
    /// What is said where all of these can be read: that one is wanted, or what this search does not take.
    else_said: &'static str,
}

// What a search of runs wants.
const ONE: &str = "one of --check, --forbid, --stop and --expect-halt is wanted";

// What a search of all schedules does not take: it has no history.
const COUNTS: &str = "counts of a run, as commits@* and aborts:conflict@1, are of hunt alone";

/// What a subcommand asks by this option, where it is one that searches.
pub fn asked_by<'s, 'a>(subcommand: &'s Subcommand<'a>, name: &str) -> Option<Asked<'s, 'a>> {
    match subcommand {
        Subcommand::Hunt(options) => Some(Asked {
            file: options.machine.file,
            conditions: named(name, options.checks.as_slice(), options.forbids.as_slice())?,
            else_said: ONE,
        }),
        Subcommand::Outcomes(options) => Some(Asked {
            file: options.machine.file,
            conditions: named(name, options.checks.as_slice(), options.forbids.as_slice())?,
            else_said: COUNTS,
        }),
        _ => None,
    }
}

// The values of the option of this name.
fn named<'s, 'a>(
    name: &str,
    checks: &'s [&'a str],
    forbids: &'s [&'a str],
) -> Option<&'s [&'a str]> {
    match name {
        "--check" => Some(checks),
        "--forbid" => Some(forbids),
        _ => None,
    }
}

/// Writes which words of `--check` or `--forbid` cannot be read, where they stand, and what is wanted there; or what
/// else is wrong with them. FILE is read again.
pub fn advise_condition<P: Paths, O: Out>(
    alloc: Global,
    asked: Asked<'_, '_>,
    name: &str,
    paths: &mut P,
    page: &mut Page<'_, O>,
) -> fmt::Result {
    if asked.conditions.is_empty() {
        return writeln!(page, "{}", asked.else_said);
    }
    let Ok(text) = paths.read(asked.file, MOST_BYTES) else {
        return Ok(());
    };
    match ProgramFile::read(alloc, text.as_slice()) {
        Ok(file) => advise_first(alloc, asked, name, text.as_slice(), &file, page),
        Err(_) => Ok(()),
    }
}

// What [`advise_condition`] does once FILE is read as a program.
fn advise_first<O: Out>(
    alloc: Global,
    asked: Asked<'_, '_>,
    name: &str,
    text: &[u8],
    file: &ProgramFile<'_>,
    page: &mut Page<'_, O>,
) -> fmt::Result {
    let misread = match first_misread(alloc, asked.conditions, text, file) {
        Ok(Some(misread)) => misread,
        Ok(None) => return writeln!(page, "{}", asked.else_said),
        Err(_) => return Ok(()),
    };
    if advise_unknown(alloc, unknown_word(&misread, file), file, page)? {
        return Ok(());
    }
    write_misread(&misread, name, page)
}

// The word of what cannot be read that is no symbol, where it is an item or bytes.
fn unknown_word<'a>(misread: &Misread<'a>, file: &ProgramFile<'_>) -> Option<&'a [u8]> {
    if matches!(file, ProgramFile::Image(_)) {
        return None;
    }
    if misread.wanted == Wanted::Clause && !misread.words.contains(':') {
        return None;
    }
    let sum = misread.words.strip_prefix("&").unwrap_or(misread.words);
    unknown_in(sum, file)
}

// Writes what cannot be read, where it stands, and what is wanted.
fn write_misread<O: Out>(misread: &Misread<'_>, name: &str, page: &mut Page<'_, O>) -> fmt::Result {
    let Misread {
        text,
        column,
        words,
        wanted,
    } = *misread;
    let form = match wanted {
        Wanted::Clause => "a comparison, as 'count == 6', or bytes, as count:4=06000000",
        Wanted::Item => {
            "a sum, as 'count' or '&table+8', a register, as eax@0, or a count, as commits@* or aborts:conflict@1"
        }
    };
    write!(page, "{name} ")?;
    page.put_shown(text)?;
    if words.is_empty() {
        writeln!(page, ": at column {column} stands nothing; it takes {form}")
    } else {
        write!(page, ": '")?;
        page.put_shown(words)?;
        writeln!(page, "' at column {column} is not {form}")
    }
}
