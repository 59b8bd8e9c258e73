//! Runs whose outcomes are told with their instructions: `--trace --code`, with `--why` or without.
//!
//! [`trace_code`] and [`explain_code`] make the steps by [`make_steps`]. What a step did is known by the machine before
//! it and behind it. With reasons, the line of `elide_why` is made in memory, so that the reason can stand
//! behind the instruction. The state below the outcomes is `schedule`'s.

ghost use Rattle.std.specs.Prelude.{◌≡◌, ℕ, IfErr, IfOk, List};
ghost use Rattle.text_out.specs.Writing.{Wrote};
ghost use Rattle.elide_setup.specs.Refused.{IsNoCore};
ghost use Rattle.elide_run.specs.Printed.{HasStepped};
ghost use Rattle.elide_run.specs.Refused.{IsNoRun, IsUnexplained};

use crate::explained::make_steps;
use crate::opening::Job;
use elide_device::{Gathered, Progress};
use elide_program::Paths;
use elide_setup::{Fault, Refusal, StepMaker};
use elide_why::{StepTeller, Teller};
use ia_image::Program;
use std::alloc::{AllocError, Global};
use symbols::Symbol;
use text_out::{Out, ToVec, WriteFault};
use tm_core::{Machine, RunFault};
use tm_hist::write_outcome;
use tm_model::{Outcome, Pick};
use tm_trace::{Before, Deed, write_deed, write_front, write_step};

/// The machine behind a run's steps, of which the line of each outcome is printed with its instruction.
pub fn trace_code<P: Paths, O: Out + Drop, G: Progress>(
    job: Job<'_>,
    paths: &mut P,
    page: Gathered<O>,
    progress: &mut G,
) -> Result<(Machine, Gathered<O>), Refusal>
    ensures refused { IfErr result (IsNoRun job.entry.opened.now.setup job.entry.opened.now.course job.entry.path) }
    ensures made { IfOk result (λ r. HasStepped (P.content paths.new) job.entry.opened.now job.entry.path
        (⟦<Gathered<O> as Out>⟧.device page) r.0 (⟦<Gathered<O> as Out>⟧.device r.1)) }
{
    let teller = CodeTeller {
        program: &job.opened.setup.program,
        labels: job.opened.places.labels(),
    };
    make_steps(job, teller, paths, page, progress)
}

/// What [`trace_code`] does, with the reasons of the aborts, each behind its instruction. `names` says whether code
/// where the subset ends is named.
pub fn explain_code<P: Paths, O: Out + Drop, G: Progress>(
    job: Job<'_>,
    names: bool,
    paths: &mut P,
    page: Gathered<O>,
    progress: &mut G,
) -> Result<(Machine, Gathered<O>), Refusal>
    ensures refused { IfErr result (IsNoRun job.entry.opened.now.setup job.entry.opened.now.course job.entry.path) }
    ensures made { IfOk result (λ r. HasStepped (P.content paths.new) job.entry.opened.now job.entry.path
        (⟦<Gathered<O> as Out>⟧.device page) r.0 (⟦<Gathered<O> as Out>⟧.device r.1)) }
{
    let opened = job.opened;
    let options = job.options;
    let program = &opened.setup.program;
    let limits = opened.setup.limits;
    let path = options.machine.file;
    let teller = Teller::new(job.alloc, program, limits, path, &opened.places, true)?;
    let teller = ReasonTeller {
        alloc: job.alloc,
        program,
        labels: opened.places.labels(),
        teller: teller.naming(names),
    };
    make_steps(job, teller, paths, page, progress)
}

// Tells each outcome with its instruction.
#[derive(Drop)]
struct CodeTeller<'a> {
    program: &'a Program,
    labels: &'a [Symbol],
}

impl StepTeller for CodeTeller<'_> {
    ghost refuses = { IsUnexplained };

    fn tell_step<O: Out>(
        &mut self,
        machine: &mut Machine,
        pick: Pick,
        out: &mut O,
    ) -> Result<Outcome, Refusal> {
        let before = before(machine, self.program, pick)?;
        let outcome = machine.make_step(pick)?;
        let deed = deed_of(&before, machine, pick, &outcome)?;
        write_step(self.labels, pick.core, &outcome, &deed, out)?;
        Ok(outcome)
    }
}

// What a machine tells of a step before it.
fn before(machine: &Machine, program: &Program, pick: Pick) -> Result<Before, Refusal>
    ensures { IfErr result (IsNoCore machine.now pick) }
{
    match Before::of(machine, program, pick.core) {
        Some(before) => Ok(before),
        None => Err(Refusal::Fault(Fault::Run(RunFault::NoSuchCore))),
    }
}

// What a step did, by the machine behind it.
fn deed_of(
    before: &Before,
    machine: &Machine,
    pick: Pick,
    outcome: &Outcome,
) -> Result<Deed, Refusal>
    ensures { IfErr result (IsNoCore machine.now pick) }
{
    if pick.core < machine.cores() {
        Ok(before.deed(machine, pick.core, outcome))
    } else {
        Err(Refusal::Fault(Fault::Run(RunFault::NoSuchCore)))
    }
}

// Tells each outcome with its instruction, and of an abort its reason.
#[derive(Drop)]
struct ReasonTeller<'a> {
    alloc: Global,
    program: &'a Program,
    labels: &'a [Symbol],
    teller: Teller<'a>,
}

impl StepTeller for ReasonTeller<'_> {
    ghost refuses = { IsUnexplained };

    fn tell_step<O: Out>(
        &mut self,
        machine: &mut Machine,
        pick: Pick,
        out: &mut O,
    ) -> Result<Outcome, Refusal> {
        // One plan of the step for what it did and for why.
        let reach = self.teller.ask(machine, pick)?;
        let before = Before::reaching(machine, self.program, pick.core, reach);
        // The line without the instruction, which ends with the reason.
        let mut line = ToVec::new(Vec::new(self.alloc));
        let told = self.teller.make(machine, pick, &mut line);
        // First: want of memory for the line would else be told as a device that failed.
        if line.failures > 0 {
            return Err(Refusal::from(AllocError));
        }
        let outcome = told?;
        let mut front = ToVec::new(Vec::new(self.alloc));
        if write_outcome(pick.core, &outcome, &mut front).is_err() {
            return Err(Refusal::from(AllocError));
        }
        let deed = deed_of(&before, machine, pick, &outcome)?;
        let step = ExplainedStep {
            core: pick.core,
            outcome: &outcome,
            deed: &deed,
            reason: reason_in(line.bytes.as_slice(), front.bytes.as_slice()),
        };
        write_explained(self.labels, step, out)?;
        Ok(outcome)
    }
}

// What a line goes on with behind that of its outcome alone, without the space or the colon before it; the line's end
// with it.
fn reason_in<'a>(line: &'a [u8], outcome: &[u8]) -> &'a [u8] {
    let front = outcome.len().saturating_sub(1).min(line.len());
    match &line[front..] {
        [b':', b' ', reason @ ..] => reason,
        [b' ', reason @ ..] => reason,
        rest => rest,
    }
}

// What stands before a reason; nothing before a line's end alone.
fn separator_of(reason: &[u8]) -> &'static [u8] {
    if reason.len() > 1 { b"; " } else { b"" }
}

// A step of a core, what it did, and what is told behind that.
#[derive(Clone, Copy)]
struct ExplainedStep<'a> {
    core: u8,
    outcome: &'a Outcome,
    deed: &'a Deed,
    // It ends the line.
    reason: &'a [u8],
}

// Writes the line of an outcome with its instruction and a reason.
fn write_explained<O: Out>(
    labels: &[Symbol],
    step: ExplainedStep<'_>,
    out: &mut O,
) -> Result<(), WriteFault>
    ensures { IfOk result (λ _. (text : List ℕ) × Wrote (O.device out.old) (O.device out.new) text) }
{
    write_front(step.core, step.outcome, step.deed.eip, out)?;
    write_deed(labels, step.deed, out)?;
    out.put(separator_of(step.reason))?;
    out.put(step.reason)?;
    Ok(())
}
