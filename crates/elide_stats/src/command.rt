//! `elide stats`: [`stats`] is the one call.
//!
//! Faults come in this order: `--record`, the machine's options, the schedule's, FILE, the program, the loading with
//! the schedule's file, the machine, the schedule's cores, the steps. The record is written with the run, a list before
//! it and a draw while it is made; behind it the counts are sorted and printed. The steps of `threads` are counted by
//! `told`, which makes them again.

ghost use Rattle.std.specs.Prelude.{◌≡◌, [], ℕ, IfErr, List, OnOk, Option, length};
ghost use Rattle.elide_program.specs.Files.{Gives, most_bytes};
ghost use Rattle.elide_program.specs.ProgramFile.{IsFile, IsRead};
ghost use Rattle.elide_program.specs.declared.file.ProgramFile.{ProgramFile};
ghost use Rattle.elide_setup.specs.Made.{HasRun, HasRunCourse, HasRunPlan};
ghost use Rattle.elide_setup.specs.Recorded.{IsRecorded};
ghost use Rattle.elide_setup.specs.Runs.{AreMachineSteps, IsRunOf};
ghost use Rattle.elide_setup.specs.Schedules.{AreOf, picks_made, picks_told, schedule_made};
ghost use Rattle.tm_core.specs.Theorem.{ShownMachine};
ghost use Rattle.elide_setup.specs.Walks.{Leads};
ghost use Rattle.tm_model.specs.declared.outcome.Outcome.{Outcome};
ghost use Rattle.tm_model.specs.declared.outcome.Pick.{Pick};
ghost use Rattle.tm_stats.specs.Counts.{AreCounts};
ghost use Rattle.elide_stats.specs.Refused.{AreOfOptions, IsNoCount, IsNotCounted, IsRefused};

use crate::counting::{Counting, Recorded};
use crate::told::{CountedRun, Form, tell_counting};
use elide_args::StatsOptions;
use elide_device::Progress;
use elide_program::{Paths, ProgramFile, Settings, has_store_buffer, read_file};
use elide_setup::{Course, Plan, Refusal, Setup, new_machine, planned, record_path};
use std::alloc::Global;
use text_out::Out;
use tm_stats::AbortCause;

// What is asked for beside the program and its schedule.
#[derive(Clone, Copy)]
struct Asked<'a> {
    alloc: Global,
    options: &'a StatsOptions<'a>,
    settings: Settings<'a>,
    // Where the schedule that came about is written.
    path: Option<&'a str>,
}

// The same with the plan of the schedule, which is spent where the schedule is read.
#[derive(Drop)]
struct Job<'a> {
    asked: &'a Asked<'a>,
    plan: Plan<'a>,
}

// A program that is to run, and its schedule.
#[derive(Clone, Copy)]
struct Ready<'a> {
    asked: &'a Asked<'a>,
    file: &'a ProgramFile<'a>,
    setup: &'a Setup,
    course: &'a Course,
}

/// Runs a schedule of core steps, writes the schedule that came about where there is a path, and prints what its
/// transactions came to.
pub fn stats<P: Paths, O: Out, G: Progress>(
    alloc: Global,
    options: &StatsOptions<'_>,
    paths: &mut P,
    out: &mut O,
    progress: &mut G,
) -> Result<(), Refusal>
    ensures ran { OnOk result (HasRun (P.content paths.old) (P.content paths.new) options.now.machine
        options.now.schedule options.now.«record») }
    ensures refused { IfErr result (IsRefused (P.content paths.old) (P.are_one paths.old) options.now) }
{
    let path = record_path(options.record, options.machine.file, paths)?;
    let settings = Settings::read(&options.machine)?;
    let plan = Plan::read(alloc, &options.schedule, has_store_buffer(&options.machine))?;
    let asked = Asked {
        alloc,
        options,
        settings,
        path,
    };
    let job = Job {
        asked: &asked,
        plan,
    };
    stats_of_path(job, paths, out, progress)
}

// What [`stats`] does once the options are read. What is made in one of these functions is lent to the next, so that
// each has little to drop.
fn stats_of_path<P: Paths, O: Out, G: Progress>(
    job: Job<'_>,
    paths: &mut P,
    out: &mut O,
    progress: &mut G,
) -> Result<(), Refusal>
    requires { AreOfOptions job.asked.now job.plan }
    ensures ran { OnOk result ((file : ProgramFile) × (given : List ℕ → Option (List ℕ))
        × IsRead (P.content paths.old job.entry.asked.now.options.now.machine.file.now) file
        × ((other : List ℕ) → given other ≡ P.content paths.old other)
        × HasRunPlan given (P.content paths.new) file job.entry.asked.now.settings job.entry.plan
        job.entry.asked.now.path) }
    ensures refused { (content : List ℕ → Option (List ℕ))
        → ((other : List ℕ) → P.content paths.old other ≡ content other)
        → IfErr result (IsNotCounted content job.entry.asked.now.options.now) }
{
    let options = job.asked.options;
    let text = read_file(options.machine.file, paths)?;
    stats_of_text(text.as_slice(), job, paths, out, progress)
}

// What [`stats_of_path`] does once FILE is read, of its text.
fn stats_of_text<P: Paths, O: Out, G: Progress>(
    text: &[u8],
    job: Job<'_>,
    paths: &mut P,
    out: &mut O,
    progress: &mut G,
) -> Result<(), Refusal>
    requires { AreOfOptions job.asked.now job.plan }
    ensures ran { OnOk result ((file : ProgramFile) × IsFile text.now file
        × HasRunPlan (P.content paths.old) (P.content paths.new) file job.entry.asked.now.settings job.entry.plan
        job.entry.asked.now.path) }
    ensures refused { (content : List ℕ → Option (List ℕ))
        → ((other : List ℕ) → P.content paths.old other ≡ content other)
        → Gives (content job.entry.asked.now.options.now.machine.file.now) most_bytes text.now
        → IfErr result (IsNotCounted content job.entry.asked.now.options.now) }
{
    let file = ProgramFile::read(job.asked.alloc, text)?;
    let told = stats_of_file(&file, job, paths, out, progress);
    drop(file);
    told
}

// What [`stats_of_text`] does once the text is read as a program.
fn stats_of_file<P: Paths, O: Out, G: Progress>(
    file: &ProgramFile<'_>,
    job: Job<'_>,
    paths: &mut P,
    out: &mut O,
    progress: &mut G,
) -> Result<(), Refusal>
    requires { AreOfOptions job.asked.now job.plan }
    ensures ran { OnOk result (HasRunPlan (P.content paths.old) (P.content paths.new) file.now
        job.entry.asked.now.settings job.entry.plan job.entry.asked.now.path) }
    ensures refused { (content : List ℕ → Option (List ℕ))
        → ((other : List ℕ) → P.content paths.old other ≡ content other)
        → IsRead (content job.entry.asked.now.options.now.machine.file.now) file.now
        → IfErr result (IsNotCounted content job.entry.asked.now.options.now) }
{
    let Job { asked, plan } = job;
    let (setup, course) = planned(asked.alloc, &asked.settings, plan, file, paths)?;
    let ready = Ready {
        asked,
        file,
        setup: &setup,
        course: &course,
    };
    stats_of_setup(ready, paths, out, progress)
}

// What [`stats_of_file`] does once the program is loaded, with its schedule.
fn stats_of_setup<P: Paths, O: Out, G: Progress>(
    ready: Ready<'_>,
    paths: &mut P,
    out: &mut O,
    progress: &mut G,
) -> Result<(), Refusal>
    ensures ran { OnOk result (HasRunCourse (P.content paths.new) ready.entry.setup.now ready.entry.course.now
        ready.entry.asked.now.path) }
    ensures refused { IfErr result (IsNoCount ready.entry.setup.now ready.entry.course.now
        ready.entry.asked.now.path) }
{
    let alloc = ready.asked.alloc;
    let machine = new_machine(alloc, ready.setup)?;
    let mut counting = Counting::new(alloc, machine)?;
    let told = stats_of_course(ready, &mut counting, paths, out, progress);
    // Dropped by a call: what a machine and its counts own is much.
    drop(counting);
    told
}

// Runs the schedule, and prints the counts.
fn stats_of_course<P: Paths, O: Out, G: Progress>(
    ready: Ready<'_>,
    counting: &mut Counting,
    paths: &mut P,
    out: &mut O,
    progress: &mut G,
) -> Result<(), Refusal>
    requires first { IsRunOf ready.setup.now.program ready.setup.now.limits [] counting.old.machine }
    requires cores { length counting.old.machine.views ≡ length ready.setup.now.program.entries }
    requires none { AreCounts ⟦<AbortCause as PartialEq>⟧.eq counting.old.counts [] }
    ensures refused { IfErr result (IsNoCount ready.entry.setup.now ready.entry.course.now
        ready.entry.asked.now.path) }
    ensures ran { OnOk result ((made : List (Pick × Outcome)) × (after : ShownMachine)
        × AreOf ready.entry.course.now (picks_made made) × Leads AreMachineSteps counting.old.machine made after
        × IsRecorded (P.content paths.new) ready.entry.asked.now.path
        (schedule_made ready.entry.course.now (picks_told made))) }
{
    let asked = ready.asked;
    let recorded = Recorded {
        course: ready.course,
        path: asked.path,
    };
    counting.run_course(asked.alloc, recorded, paths, progress)?;
    let form = Form {
        alloc: asked.alloc,
        file: ready.file,
        is_json: asked.options.is_json,
    };
    tell_counting(
        form,
        CountedRun::Planned(ready.setup, ready.course),
        counting,
        out,
    )
}
