//! What is printed of a run that was counted, for `stats` and for `--stats` of `threads`.
//!
//! [`tell_counting`] sorts the counts, reads the labels, makes the report, and then prints it, gathered.
//! [`tell_counts`] makes the steps of a board again before that, on a machine of its own, since a board's history has
//! outcomes and no causes. Want of memory for counts and rows is that of a run.

ghost use Rattle.std.specs.Prelude.{[], IfErr};
ghost use Rattle.elide_setup.specs.Runs.{IsRunOf};
ghost use Rattle.elide_setup.specs.Refused.{IsUntold};
ghost use Rattle.elide_stats.specs.Counted.{HasCounted};
ghost use Rattle.elide_stats.specs.Refused.{AreUntold};
ghost use Rattle.tm_stats.specs.Counts.{AreCounts};

use crate::columns::put_columns;
use crate::counting::{Counting, no_memory};
use crate::json::json_line;
use crate::labels::Labels;
use crate::report::Report;
use elide_device::{Gathered, Lent, Progress};
use elide_places::Naming;
use elide_program::ProgramFile;
use elide_setup::{Course, Refusal, Setup, machine_like};
use std::alloc::Global;
use text_out::Out;
use tm_hist::Board;
use tm_stats::AbortCause;

/// The run whose steps are counted.
#[derive(Clone, Copy)]
pub enum CountedRun<'a> {
    /// That of a program along a schedule.
    Planned(&'a Setup, &'a Course),
    /// That which a board has made.
    Made(&'a Board),
}

/// In which form counts are told.
#[derive(Clone, Copy)]
pub struct Form<'a> {
    /// For texts.
    pub alloc: Global,
    /// The file of the program, for its labels.
    pub file: &'a ProgramFile<'a>,
    /// Whether as JSON, and not in columns.
    pub is_json: bool,
}

/// Prints what the transactions of a run of the program of the form's file came to.
pub fn tell_counting<O: Out>(
    form: Form<'_>,
    run: CountedRun<'_>,
    counting: &mut Counting,
    out: &mut O,
) -> Result<(), Refusal>
    requires { HasCounted ⟦<AbortCause as PartialEq>⟧.eq run counting.old }
    ensures { IfErr result IsUntold }
{
    if counting.sort().is_err() {
        return Err(no_memory());
    }
    // JSON has escapes of its own.
    let naming = if form.is_json {
        Naming::Raw
    } else {
        Naming::Shown
    };
    match Labels::of_file(form.alloc, form.file, naming) {
        Ok(labels) => tell_labelled(form, run, counting, &labels, out),
        Err(refused) => Err(Refusal::from(refused)),
    }
}

// What [`tell_counting`] does once the counts are sorted and the symbols read. It is told by its counts alone: the run
// is there for the clause.
fn tell_labelled<O: Out>(
    form: Form<'_>,
    _run: CountedRun<'_>,
    counting: &Counting,
    labels: &Labels,
    out: &mut O,
) -> Result<(), Refusal>
    requires { HasCounted ⟦<AbortCause as PartialEq>⟧.eq _run counting.now }
    ensures { IfErr result IsUntold }
{
    match Report::of(form.alloc, counting.counts(), counting.conflicts(), labels) {
        Ok(report) => tell_report(form.alloc, &report, form.is_json, out),
        Err(_) => Err(no_memory()),
    }
}

// Prints a report.
fn tell_report<O: Out>(
    alloc: Global,
    report: &Report,
    is_json: bool,
    out: &mut O,
) -> Result<(), Refusal>
    ensures { IfErr result IsUntold }
{
    let mut page = Gathered::new(Lent::new(out));
    if is_json {
        put_json(alloc, report, &mut page)?;
    } else {
        put_columns(report, &mut page)?;
    }
    page.finish()?;
    Ok(())
}

// Prints a report as JSON.
fn put_json<O: Out>(alloc: Global, report: &Report, out: &mut O) -> Result<(), Refusal>
    ensures { IfErr result IsUntold }
{
    match json_line(alloc, report) {
        Ok(line) => {
            out.put(line.as_bytes())?;
            Ok(())
        }
        Err(_) => Err(no_memory()),
    }
}

/// Makes the steps of a board again on a machine of their own, and prints what its transactions came to. The file is
/// that of the board's program.
pub fn tell_counts<O: Out, G: Progress>(
    alloc: Global,
    board: &Board,
    file: &ProgramFile<'_>,
    is_json: bool,
    out: &mut O,
    progress: &mut G,
) -> Result<(), Refusal>
    ensures { IfErr result (AreUntold board.now.limits) }
{
    let machine = machine_like(alloc, board.program(), board.limits())?;
    let mut counting = Counting::new(alloc, machine)?;
    let form = Form {
        alloc,
        file,
        is_json,
    };
    let told = tell_made(form, board, &mut counting, out, progress);
    // Dropped by a call: what a machine and its counts own is much.
    drop(counting);
    told
}

// What [`tell_counts`] does, with a machine before its first step.
fn tell_made<O: Out, G: Progress>(
    form: Form<'_>,
    board: &Board,
    counting: &mut Counting,
    out: &mut O,
    progress: &mut G,
) -> Result<(), Refusal>
    requires first { IsRunOf board.now.program board.now.limits [] counting.old.machine }
    requires none { AreCounts ⟦<AbortCause as PartialEq>⟧.eq counting.old.counts [] }
    ensures { IfErr result IsUntold }
{
    counting.run_history(board, progress)?;
    tell_counting(form, CountedRun::Made(board), counting, out)
}
