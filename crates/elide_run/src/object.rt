//! Runs that are printed as one object. Its outcomes are written as they are made, so that no memory grows with the
//! run.
//!
//! [`run_object`] refuses instructions and reasons first; then comes what runs as lines begin with: the path of the
//! record, FILE, its schedule, the machine. The object's front is written once the machine is there, and what stands
//! behind the outcomes when the last step is made. The texts of both are `elide_json`'s.

ghost use Rattle.std.specs.Prelude.{◌≡◌, ◌≤◌, ◌<◌, ◌+◌, ◌++◌, ◌^◌, [], ◌∷◌, cond, length, not, true, IfErr, IfOk};
ghost use Rattle.std.specs.Prelude.{OnErr, OnOk, if◌then◌else◌};
ghost use Rattle.std.specs.Option.{option_copied};
ghost use Rattle.arrayvec.specs.ArrayVec.{array_vec_len};
ghost use Rattle.text_out.specs.Writing.{Wrote};
ghost use Rattle.elide_json.specs.Objects.{run_members};
ghost use Rattle.elide_json.specs.Outcomes.{rows_text, run_back, run_front, run_rows};
ghost use Rattle.elide_json.specs.Refused.{IsUnsaid, IsUnsent};
ghost use Rattle.elide_setup.specs.Refused.{IsAnyWant};
ghost use Rattle.elide_setup.specs.Runs.{AreMachineSteps};
ghost use Rattle.elide_run.specs.Object.{IsEnd, IsObjectPrinted, asked_running, cores_ending, ending_status};
ghost use Rattle.elide_run.specs.Object.{running_cores};
ghost use Rattle.elide_run.specs.Printed.{HasSteppedAs};
ghost use Rattle.elide_run.specs.Refused.{IsNoRun, IsRefused, IsUnexplained};

use crate::halting::{Ending, has_stopped};
use crate::opening::{Job, machine_of};
use arrayvec::ArrayVec;
use elide_args::RunOptions;
use elide_device::{Gathered, Progress};
use elide_json::{Subject, put_back, put_front, put_outcome};
use elide_program::Paths;
use elide_setup::{Fault, Opened, Refusal, Setup, StepMaker, record_path};
use std::alloc::Global;
use text_out::Out;
use tm_core::{Machine, RunFault};
use tm_model::{Outcome, Pick};

// The numbers of cores.
type Cores = ArrayVec<u32, 64>;

/// Runs a schedule of core steps, and prints the object of the run. Answers whether a core has not stopped, where all
/// are expected to, and gives the device back.
///
/// [`Refusal::Usage`] of `--json`, where instructions or the reasons of the aborts are asked for.
pub fn run_object<P: Paths, O: Out + Drop, G: Progress>(
    alloc: Global,
    options: &RunOptions<'_>,
    paths: &mut P,
    out: O,
    progress: &mut G,
) -> Result<(Ending, O), Refusal>
    requires { options.now.is_json ≡ true }
    ensures printed { IfOk result (λ r. IsObjectPrinted (P.content paths.old) (P.content paths.new) options.now r.0
        (O.device out).contents (O.device r.1).contents) }
    ensures refused { IfErr result (IsRefused (P.content paths.old) (P.are_one paths.old) options.now) }
{
    if options.explains || options.shows_code {
        return Err(Refusal::Usage("--json"));
    }
    let path = record_path(options.record, options.machine.file, paths)?;
    let opened = Opened::read(alloc, &options.machine, &options.schedule, false, paths)?;
    let page = Gathered::new(out);
    let job = Job {
        alloc,
        options: &*options,
        opened: &opened,
        path,
    };
    let made = make_steps(job, paths, page, progress);
    let Opened { setup, course, .. } = opened;
    drop(course);
    let (machine, page) = made?;
    let told = tell_end(alloc, &machine, &setup, options, page);
    drop(machine);
    drop(setup);
    told
}

// The machine behind a run's steps, whose outcomes are written where they are asked for.
fn make_steps<P: Paths, O: Out + Drop, G: Progress>(
    job: Job<'_>,
    paths: &mut P,
    page: Gathered<O>,
    progress: &mut G,
) -> Result<(Machine, Gathered<O>), Refusal>
    ensures refused { IfErr result (IsNoRun job.entry.opened.now.setup job.entry.opened.now.course job.entry.path) }
    ensures made { IfOk result (λ r. HasSteppedAs
        (λ made. run_front job.entry.options.now.traces ++ run_rows job.entry.options.now.traces made)
        (P.content paths.new) job.entry.opened.now job.entry.path (⟦<Gathered<O> as Out>⟧.device page) r.0
        (⟦<Gathered<O> as Out>⟧.device r.1)) }
{
    let Job {
        alloc,
        options,
        opened,
        path,
    } = job;
    let traces = options.traces;
    let course = &opened.course;
    let mut machine = machine_of(alloc, &opened.setup, course)?;
    let cores = machine.cores();
    let page = begin(traces, page)?;
    if !traces {
        course.walk_recorded(alloc, cores, path, &mut machine, paths, progress)?;
        return Ok((machine, page));
    }
    let mut sending = Sending {
        alloc,
        machine,
        page,
        made: 0,
    };
    course.walk_recorded(alloc, cores, path, &mut sending, paths, progress)?;
    let Sending { machine, page, .. } = sending;
    Ok((machine, page))
}

// What stands before the outcomes is written.
fn begin<O: Out + Drop>(traces: bool, page: Gathered<O>) -> Result<Gathered<O>, Refusal>
    ensures wrote { IfOk result
        (λ begun. Wrote (⟦<Gathered<O> as Out>⟧.device page) (⟦<Gathered<O> as Out>⟧.device begun)
        (run_front traces)) }
    ensures unsaid { IfErr result IsUnsaid }
{
    let mut page = page;
    put_front(traces, &mut page)?;
    Ok(page)
}

// A machine whose outcomes are written.
#[derive(Drop)]
struct Sending<O> {
    alloc: Global,
    machine: Machine,
    page: Gathered<O>,
    // How many were.
    made: u64,
}

impl<O: Out> StepMaker for Sending<O> {
    ghost takes = { λ before steps after. AreMachineSteps before.machine steps after.machine
        × Wrote (⟦<Gathered<O> as Out>⟧.device before.page) (⟦<Gathered<O> as Out>⟧.device after.page)
        (rows_text before.made steps)
        × (after.made ≡ before.made + length steps) };

    ghost refuses = { λ before pick why. IsUnexplained before.machine pick why };

    fn make_step(&mut self, pick: Pick) -> Result<Outcome, Refusal> {
        let outcome = self.machine.make_step(pick)?;
        let step = number_behind(self.made)?;
        put_outcome(self.alloc, step, pick.core, outcome, &mut self.page)?;
        self.made = step;
        Ok(outcome)
    }
}

// The number of the step behind so many others. No run comes to where there is none.
fn number_behind(made: u64) -> Result<u64, Refusal>
    ensures number { IfOk result (λ step. step ≡ made + 1) }
    ensures none { OnErr result (made + 1 ≡ 2 ^ 64) }
    ensures want { IfErr result IsAnyWant }
{
    match made.checked_add(1) {
        Some(step) => Ok(step),
        None => Err(Refusal::Fault(Fault::Run(RunFault::NoMemory))),
    }
}

// Writes what stands behind the outcomes, and hands the text on.
fn tell_end<O: Out + Drop>(
    alloc: Global,
    machine: &Machine,
    setup: &Setup,
    options: &RunOptions<'_>,
    page: Gathered<O>,
) -> Result<(Ending, O), Refusal>
    ensures told { IfOk result (λ r. IsEnd options.now setup.now machine.now r.0
        (⟦<Gathered<O> as Out>⟧.device page).contents (O.device r.1).contents) }
    ensures unsent { IfErr result (IsUnsent machine.now.memory setup.now.parts) }
{
    let mut page = page;
    let cores = running_of(machine);
    let ending = ending_of_cores(options.expects_halt, cores.as_slice());
    let end = End {
        machine,
        setup,
        options,
        cores: cores.as_slice(),
        status: status_of(ending),
    };
    put_end(alloc, end, &mut page)?;
    let out = page.finish()?;
    Ok((ending, out))
}

// How a run ended.
#[derive(Clone, Copy)]
struct End<'a> {
    machine: &'a Machine,
    setup: &'a Setup,
    options: &'a RunOptions<'a>,
    // The cores that have not stopped.
    cores: &'a [u32],
    status: u8,
}

fn put_end<O: Out>(alloc: Global, end: End<'_>, out: &mut O) -> Result<(), Refusal>
    ensures wrote { OnOk result (Wrote (O.device out.old) (O.device out.new) (run_back end.entry.options.now.traces
        (run_members end.entry.machine.now end.entry.setup.now.parts end.entry.options.now.machine.shows.items
        (asked_running end.entry.options.now.expects_halt end.entry.cores.now) end.entry.status))) }
    ensures unsent { IfErr result (IsUnsent end.entry.machine.now.memory end.entry.setup.now.parts) }
{
    let options = end.options;
    let subject = Subject {
        machine: end.machine,
        parts: &end.setup.parts,
        texts: options.machine.shows.as_slice(),
    };
    let running = asked_cores(options.expects_halt, end.cores);
    put_back(alloc, subject, options.traces, running, end.status, out)
}

// Those that are told, where they are asked for.
fn asked_cores(expects_halt: bool, cores: &[u32]) -> Option<&[u32]>
    ensures { option_copied result ≡ asked_running expects_halt cores.now }
{
    if expects_halt { Some(cores) } else { None }
}

// The numbers of the cores that have not stopped.
fn running_of(machine: &Machine) -> Cores
    ensures { result.items ≡ running_cores machine.now }
{
    let mut cores = Cores::new();
    for core in 0..machine.cores() {
        push_running(&mut cores, core, has_stopped(machine, core));
    }
    cores
}

// Adds a core, unless it has stopped.
fn push_running(cores: &mut Cores, core: u8, has_stopped: bool)
    requires { array_vec_len cores.old < 64 }
    ensures cores { cores.new.items ≡ cores.old.items ++ cond (not has_stopped) (core ∷ []) [] }
    ensures len { array_vec_len cores.new ≤ array_vec_len cores.old + 1 }
{
    if !has_stopped {
        cores.push(u32::from(core));
    }
}

fn ending_of_cores(expects_halt: bool, cores: &[u32]) -> Ending
    ensures { result ≡ (if expects_halt then cores_ending cores.now else Ending.AsAsked) }
{
    if expects_halt && !cores.is_empty() {
        Ending::RunsOn
    } else {
        Ending::AsAsked
    }
}

// The exit status.
fn status_of(ending: Ending) -> u8
    ensures { result ≡ ending_status ending }
{
    match ending {
        Ending::AsAsked => 0,
        Ending::RunsOn => 3,
    }
}
