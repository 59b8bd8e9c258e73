//! `elide run`: [`run`] is the one call, as lines or as an object.
//!
//! `--code` without the outcomes is refused first, before any option is read. Then: the path of the record, the other
//! options, FILE, its schedule, the machine, the steps, each with its line, the state, what is shown of memory, and the
//! cores that run on. A list is recorded before its first step, a draw as it is made. The output is gathered, and
//! handed on at the end or where it is much.

ghost use Rattle.std.specs.Prelude.{◌≡◌, ◌⊎◌, IfErr, IfOk, false, true};
ghost use Rattle.text_out.specs.Writing.{Wrote};
ghost use Rattle.elide_setup.specs.Refused.{IsUnwritten};
ghost use Rattle.elide_setup.specs.Runs.{AreMachineSteps};
ghost use Rattle.elide_run.specs.Object.{IsObjectPrinted};
ghost use Rattle.elide_run.specs.Printed.{HasSteppedAs, IsPrinted, IsRunAsAsked, IsStepped, IsTold};
ghost use Rattle.elide_run.specs.Printed.{outcome_lines, trace_text};
ghost use Rattle.elide_run.specs.Refused.{HasNotAll, IsNoRun, IsRefused};
ghost use Rattle.elide_why.specs.Refused.{IsUntoldStep};

use crate::coded::{explain_code, trace_code};
use crate::explained::explain_steps;
use crate::halting::{Ending, ending_of};
use crate::object::run_object;
use crate::opening::{Job, machine_of};
use elide_args::RunOptions;
use elide_device::{Gathered, Progress};
use elide_program::Paths;
use elide_setup::{Opened, Refusal, Setup, StepMaker, record_path, show, shown_memory};
use std::alloc::Global;
use text_out::Out;
use tm_core::Machine;
use tm_hist::write_outcome;
use tm_model::{Outcome, Pick};

// What is asked for.
#[derive(Clone, Copy)]
struct Asked<'a> {
    alloc: Global,
    options: &'a RunOptions<'a>,
    // Whether a reason names code where the subset ends.
    names: bool,
}

/// Runs a schedule of core steps, and prints the outcomes where they are asked for, with their instructions, the
/// reasons of the aborts where these are, the state, and what is asked for of memory; and where it is expected that all
/// cores stop, those that did not: as lines, or as one object (docs/JSON.md, "run"), which has no reasons. `names` says
/// whether a reason names code where the subset ends. Answers whether there is one then, and gives the device back.
///
/// [`Refusal::Usage`] of `--code` without the outcomes, and of `--json`, where instructions or reasons are asked for
/// too.
pub fn run<P: Paths, O: Out + Drop, G: Progress>(
    alloc: Global,
    options: &RunOptions<'_>,
    names: bool,
    paths: &mut P,
    out: O,
    progress: &mut G,
) -> Result<(Ending, O), Refusal>
    ensures lines { IfOk result
        (λ r. options.now.is_json ≡ false → IsPrinted (P.content paths.old) (P.content paths.new)
        options.now r.0 (O.device out).contents (O.device r.1).contents) }
    ensures object { IfOk result (λ r. options.now.is_json ≡ true → IsObjectPrinted (P.content paths.old)
        (P.content paths.new) options.now r.0 (O.device out).contents (O.device r.1).contents) }
    ensures refused { IfErr result (IsRefused (P.content paths.old) (P.are_one paths.old) options.now) }
{
    if options.shows_code && !options.traces {
        return Err(Refusal::Usage("--code"));
    }
    if options.is_json {
        run_object(alloc, options, paths, out, progress)
    } else {
        let asked = Asked {
            alloc,
            options: &*options,
            names,
        };
        run_lines(asked, paths, out, progress)
    }
}

// What [`run`] does, as lines.
fn run_lines<P: Paths, O: Out + Drop, G: Progress>(
    asked: Asked<'_>,
    paths: &mut P,
    out: O,
    progress: &mut G,
) -> Result<(Ending, O), Refusal>
    ensures printed { IfOk result (λ r. IsPrinted (P.content paths.old) (P.content paths.new)
        asked.entry.options.now r.0 (O.device out).contents (O.device r.1).contents) }
    ensures refused { IfErr result (IsRefused (P.content paths.old) (P.are_one paths.old) asked.entry.options.now) }
{
    let page = Gathered::new(out);
    let (setup, machine, page) = run_steps(asked, paths, page, progress)?;
    let told = tell(&machine, &setup, asked.options, page);
    drop(machine);
    drop(setup);
    told
}

// Makes a run's steps, and prints what is asked for of each.
fn run_steps<P: Paths, O: Out + Drop, G: Progress>(
    asked: Asked<'_>,
    paths: &mut P,
    page: Gathered<O>,
    progress: &mut G,
) -> Result<(Setup, Machine, Gathered<O>), Refusal>
    ensures made { IfOk result (λ r. IsRunAsAsked (P.content paths.old) (P.content paths.new)
        asked.entry.options.now r.0 r.1
        (⟦<Gathered<O> as Out>⟧.device page).contents (⟦<Gathered<O> as Out>⟧.device r.2).contents) }
    ensures refused { IfErr result (IsRefused (P.content paths.old) (P.are_one paths.old) asked.entry.options.now) }
{
    let Asked {
        alloc,
        options,
        names,
    } = asked;
    let path = record_path(options.record, options.machine.file, paths)?;
    let opened = Opened::read(
        alloc,
        &options.machine,
        &options.schedule,
        options.explains || options.shows_code,
        paths,
    )?;
    let job = Job {
        alloc,
        options: &*options,
        opened: &opened,
        path,
    };
    let made = tell_steps(job, names, paths, page, progress);
    let Opened {
        setup,
        course,
        places,
    } = opened;
    drop(places);
    drop(course);
    let (machine, page) = made?;
    Ok((setup, machine, page))
}

// The machine behind a run's steps, each of which is told as it is asked for.
fn tell_steps<P: Paths, O: Out + Drop, G: Progress>(
    job: Job<'_>,
    names: bool,
    paths: &mut P,
    page: Gathered<O>,
    progress: &mut G,
) -> Result<(Machine, Gathered<O>), Refusal>
    ensures refused { IfErr result (IsNoRun job.entry.opened.now.setup job.entry.opened.now.course job.entry.path) }
    ensures made { IfOk result (λ r. IsStepped (P.content paths.new) job.entry.options.now job.entry.opened.now
        job.entry.path (⟦<Gathered<O> as Out>⟧.device page) r.0 (⟦<Gathered<O> as Out>⟧.device r.1)) }
{
    match (job.options.explains, job.options.shows_code) {
        (true, true) => explain_code(job, names, paths, page, progress),
        (true, false) => explain_steps(job, names, paths, page, progress),
        (false, true) => trace_code(job, paths, page, progress),
        (false, false) => trace_steps(job, paths, page, progress),
    }
}

// The machine behind a run's steps, whose outcomes are printed where they are asked for.
fn trace_steps<P: Paths, O: Out + Drop, G: Progress>(
    job: Job<'_>,
    paths: &mut P,
    page: Gathered<O>,
    progress: &mut G,
) -> Result<(Machine, Gathered<O>), Refusal>
    ensures refused { IfErr result (IsNoRun job.entry.opened.now.setup job.entry.opened.now.course job.entry.path) }
    ensures made { IfOk result (λ r. HasSteppedAs (trace_text job.entry.options.now.traces) (P.content paths.new)
        job.entry.opened.now job.entry.path (⟦<Gathered<O> as Out>⟧.device page) r.0
        (⟦<Gathered<O> as Out>⟧.device r.1)) }
{
    let Job {
        alloc,
        options,
        opened,
        path,
    } = job;
    let traces = options.traces;
    let course = &opened.course;
    let mut machine = machine_of(alloc, &opened.setup, course)?;
    let cores = machine.cores();
    if !traces {
        course.walk_recorded(alloc, cores, path, &mut machine, paths, progress)?;
        return Ok((machine, page));
    }
    let mut tracing = Tracing { machine, page };
    course.walk_recorded(alloc, cores, path, &mut tracing, paths, progress)?;
    let Tracing { machine, page } = tracing;
    Ok((machine, page))
}

// A machine whose outcomes are printed.
#[derive(Drop)]
struct Tracing<O> {
    machine: Machine,
    page: Gathered<O>,
}

impl<O: Out> StepMaker for Tracing<O> {
    ghost takes = { λ before steps after. AreMachineSteps before.machine steps after.machine
        × Wrote (⟦<Gathered<O> as Out>⟧.device before.page) (⟦<Gathered<O> as Out>⟧.device after.page)
        (outcome_lines steps) };

    ghost refuses = { λ before pick why. IsUntoldStep before.machine pick why };

    fn make_step(&mut self, pick: Pick) -> Result<Outcome, Refusal> {
        let outcome = self.machine.make_step(pick)?;
        write_outcome(pick.core, &outcome, &mut self.page)?;
        Ok(outcome)
    }
}

// Prints the state and what is asked for of memory, and the cores that have not stopped where all are expected to.
fn tell<O: Out + Drop>(
    machine: &Machine,
    setup: &Setup,
    options: &RunOptions<'_>,
    page: Gathered<O>,
) -> Result<(Ending, O), Refusal>
    ensures refused { IfErr result (λ why. HasNotAll setup.now machine.now why ⊎ IsUnwritten why) }
    ensures told { IfOk result (λ r. IsTold options.now setup.now machine.now r.0
        (⟦<Gathered<O> as Out>⟧.device page).contents (O.device r.1).contents) }
{
    let mut page = page;
    let memory = shown_memory(
        machine.view(),
        &setup.parts,
        options.machine.shows.as_slice(),
    )?;
    show(machine, memory, &mut page)?;
    let ending = if options.expects_halt {
        ending_of(machine, &mut page)?
    } else {
        Ending::AsAsked
    };
    let out = page.finish()?;
    Ok((ending, out))
}
