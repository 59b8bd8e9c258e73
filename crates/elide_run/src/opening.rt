//! What a run begins with: its machine, and that nothing is wanting for the run's end.
//!
//! [`machine_of`] makes the machine, then asks for the cores of a listed schedule, then for what is shown of memory.
//! All runs pass here before their first step, so that these faults leave the output empty.

ghost use Rattle.std.specs.Prelude.{◌≡◌, ◌<◌, [], All, IfErr, IfOk, length};
ghost use Rattle.elide_run.specs.Refused.{IsNotReady};
ghost use Rattle.elide_setup.specs.Runs.{IsRunOf};
ghost use Rattle.elide_setup.specs.Schedules.{listed_in};
ghost use Rattle.tm_model.specs.declared.outcome.Pick.{Pick};

use elide_args::RunOptions;
use elide_setup::{Course, Opened, Refusal, Setup, new_machine, shown_memory};
use std::alloc::Global;
use tm_core::Machine;

/// A run that is to be made: what each step of the way reads.
#[derive(Clone, Copy)]
pub struct Job<'a> {
    /// For the machine and for texts.
    pub alloc: Global,
    /// What is asked for.
    pub options: &'a RunOptions<'a>,
    /// What was read by the options.
    pub opened: &'a Opened,
    /// Where the schedule that came about is written.
    pub path: Option<&'a str>,
}

/// The machine of a program before its first step, where the schedule names its cores alone, and what is to be printed
/// of memory is there.
pub fn machine_of(alloc: Global, setup: &Setup, course: &Course) -> Result<Machine, Refusal>
    ensures made { IfOk result (IsRunOf setup.now.program setup.now.limits []) }
    ensures cores { IfOk result (λ machine. length machine.views ≡ length setup.now.program.entries) }
    ensures fit { IfOk result
        (λ _. All (λ (pick : Pick). pick.core < length setup.now.program.entries) (listed_in course.now)) }
    ensures none { IfErr result (IsNotReady setup.now course.now) }
{
    let machine = new_machine(alloc, setup)?;
    course.check_cores(machine.cores())?;
    shown_memory(machine.view(), &setup.parts, &[])?;
    Ok(machine)
}
