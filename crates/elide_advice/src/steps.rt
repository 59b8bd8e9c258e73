//! Schedules that are none, and steps of cores that are not there.
//!
//! [`advise_core`] reads the list or the file again and names the first step whose core is too great;
//! [`advise_schedule`] shows the line of the file that was told. [`write_line`] shows a line of any file, for image
//! text, too. A list of `--steps` that says nothing is misused, and told by `misuse`.

use crate::asked::{machine_of, schedule_of};
use crate::excerpt::{Excerpt, write_excerpt};
use crate::machine::cores_of;
use crate::page::Page;
use elide_args::Subcommand;
use elide_program::{MOST_BYTES, Paths};
use ia_lex::first_line;
use std::alloc::Global;
use std::fmt;
use std::fmt::Write;
use text_out::Out;
use tm_schedule::{ScheduleFault, read_schedule, read_steps};

/// Writes which step names a core that is not there.
pub fn advise_core<P: Paths, O: Out>(
    alloc: Global,
    subcommand: &Subcommand<'_>,
    paths: &mut P,
    page: &mut Page<'_, O>,
) -> fmt::Result {
    let (Some(machine), Some(schedule)) = (machine_of(subcommand), schedule_of(subcommand)) else {
        return Ok(());
    };
    let steps = match (schedule.steps, schedule.path) {
        (Some(list), _) => read_steps(alloc, list.as_bytes()),
        (None, Some(path)) => match paths.read(path, MOST_BYTES) {
            Ok(text) => read_schedule(alloc, text.as_slice()),
            Err(_) => return Ok(()),
        },
        (None, None) => return Ok(()),
    };
    let Ok(steps) = steps else {
        return Ok(());
    };
    let cores = cores_of(machine);
    for (index, pick) in steps.as_slice().iter().enumerate() {
        let core = pick.core;
        if u32::from(core) >= cores {
            let step = index.saturating_add(1);
            return writeln!(page, "step {step} names core {core} of {cores}");
        }
    }
    Ok(())
}

/// Writes which line of a schedule's file is none of a schedule.
pub fn advise_schedule<P: Paths, O: Out>(
    subcommand: &Subcommand<'_>,
    fault: ScheduleFault,
    paths: &mut P,
    page: &mut Page<'_, O>,
) -> fmt::Result {
    let Some(schedule) = schedule_of(subcommand) else {
        return Ok(());
    };
    let Some(path) = schedule.path else {
        return Ok(());
    };
    match fault {
        ScheduleFault::BadSchedule(1) => {
            let meaning = "the first line is 'schedule 1', 'schedule 2' or 'schedule 3'";
            write_line(path, 1, meaning, paths, page)
        }
        ScheduleFault::BadSchedule(line) => {
            let meaning =
                "core numbers of 0 to 255 between spaces; below 'schedule 2' also c*n, below 'schedule 3' ci, ce, cs, cd too";
            write_line(path, line, meaning, paths, page)
        }
        ScheduleFault::TooManySteps(line) => {
            let meaning = "more than 16777216 steps";
            write_line(path, line, meaning, paths, page)
        }
        ScheduleFault::NoMemory => Ok(()),
    }
}

/// Writes a whole line of a file, and what is meant.
pub fn write_line<P: Paths, O: Out>(
    path: &str,
    number: usize,
    meaning: &str,
    paths: &mut P,
    page: &mut Page<'_, O>,
) -> fmt::Result {
    let Ok(text) = paths.read(path, MOST_BYTES) else {
        return Ok(());
    };
    let line = line_of(text.as_slice(), number);
    let excerpt = Excerpt {
        path,
        number,
        text: line,
        column: 1,
        length: line.len(),
    };
    write_excerpt(&excerpt, &meaning, page)
}

// The line of this number, empty where there is none.
fn line_of(text: &[u8], number: usize) -> &[u8] {
    let mut place = 0;
    let mut above = 1;
    'lines: while place < text.len() {
        let (line, taken) = first_line(&text[place..]);
        if above == number {
            return line;
        }
        above = above.saturating_add(1);
        place += taken;
    }
    b""
}
