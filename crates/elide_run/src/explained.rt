//! Runs that tell why transactions abort, and the walk of all runs that tell more than outcomes.
//!
//! [`make_steps`] makes the machine, and has each step made and told by a [`StepTeller`] of `elide_why`. A line that is
//! not written ends the run. As an object there are no reasons: `object` refuses them.

ghost use Rattle.std.specs.Prelude.{IfErr, IfOk};
ghost use Rattle.elide_run.specs.Printed.{HasStepped};
ghost use Rattle.elide_run.specs.Refused.{IsNoRun, IsUnexplained};
ghost use Rattle.elide_setup.specs.declared.fault.Refusal.{Refusal};
ghost use Rattle.tm_core.specs.Theorem.{ShownMachine};
ghost use Rattle.tm_model.specs.declared.outcome.Pick.{Pick};

use crate::opening::{Job, machine_of};
use elide_device::{Gathered, Progress};
use elide_program::Paths;
use elide_setup::Refusal;
use elide_why::{StepTeller, Teller, Telling};
use text_out::Out;
use tm_core::Machine;

/// The machine behind a run's steps, of which the line of each abort is printed with its reason, and the other outcomes
/// where they are asked for. `names` says whether code where the subset ends is named.
pub fn explain_steps<P: Paths, O: Out + Drop, G: Progress>(
    job: Job<'_>,
    names: bool,
    paths: &mut P,
    page: Gathered<O>,
    progress: &mut G,
) -> Result<(Machine, Gathered<O>), Refusal>
    ensures refused { IfErr result (IsNoRun job.entry.opened.now.setup job.entry.opened.now.course job.entry.path) }
    ensures made { IfOk result (λ r. HasStepped (P.content paths.new) job.entry.opened.now job.entry.path
        (⟦<Gathered<O> as Out>⟧.device page) r.0 (⟦<Gathered<O> as Out>⟧.device r.1)) }
{
    let options = job.options;
    let opened = job.opened;
    let setup = &opened.setup;
    let teller = Teller::new(
        job.alloc,
        &setup.program,
        setup.limits,
        options.machine.file,
        &opened.places,
        options.traces,
    )?;
    let teller = teller.naming(names);
    make_steps(job, teller, paths, page, progress)
}

/// The machine behind a run's steps, which this teller tells. It refuses a step for no reason but those that one is
/// refused for that is explained.
pub fn make_steps<T: StepTeller + Drop, P: Paths, O: Out + Drop, G: Progress>(
    job: Job<'_>,
    teller: T,
    paths: &mut P,
    page: Gathered<O>,
    progress: &mut G,
) -> Result<(Machine, Gathered<O>), Refusal>
    requires { (machine : ShownMachine) (pick : Pick) (why : Refusal) → T.refuses machine pick why
        → IsUnexplained machine pick why }
    ensures refused { IfErr result (IsNoRun job.entry.opened.now.setup job.entry.opened.now.course job.entry.path) }
    ensures made { IfOk result (λ r. HasStepped (P.content paths.new) job.entry.opened.now job.entry.path
        (⟦<Gathered<O> as Out>⟧.device page) r.0 (⟦<Gathered<O> as Out>⟧.device r.1)) }
{
    let Job {
        alloc,
        opened,
        path,
        ..
    } = job;
    let course = &opened.course;
    let machine = machine_of(alloc, &opened.setup, course)?;
    let cores = machine.cores();
    let mut telling = Telling {
        machine,
        teller,
        page,
    };
    course.walk_recorded(alloc, cores, path, &mut telling, paths, progress)?;
    let Telling { machine, page, .. } = telling;
    Ok((machine, page))
}
