//! The program of a file as the options say, and from it to a machine or a board before its first step.
//!
//! [`planned`] goes in the order in which faults are told: the entries, what is printed of memory, the schedule's file,
//! the loading. What comes before, from the options to the file, is `opened`'s. [`new_machine`] and [`new_board`] come
//! last, and test the limits of transactions and of pending stores; only the latter tests that what is printed is in
//! memory. No step is made here: that is `walk`.

ghost use Rattle.std.specs.Prelude.{◌≡◌, ◌≤◌, ℕ, [], Bool, IfErr, IfOk, List, length};
ghost use Rattle.tm_model.specs.declared.outcome.Outcome.{Outcome};
ghost use Rattle.tm_model.specs.declared.outcome.Pick.{Pick};
ghost use Rattle.tm_hist.specs.Board.{IsNew};
ghost use Rattle.elide_program.specs.Entries.{AreStarts};
ghost use Rattle.elide_program.specs.Parts.{AreParts};
ghost use Rattle.elide_program.specs.ProgramFile.{TellsLoad};
ghost use Rattle.elide_program.specs.declared.fault.ProgramRefusal.{ProgramRefusal};
ghost use Rattle.elide_program.specs.declared.file.ProgramFile.{ProgramFile};
ghost use Rattle.elide_args.specs.declared.subcommand.ScheduleOptions.{ScheduleOptions};
ghost use Rattle.elide_setup.specs.Drawing.{IsAskedDraw, IsCourseDraw};
ghost use Rattle.elide_setup.specs.Faults.{refusal_of};
ghost use Rattle.elide_setup.specs.Refused.{IsNoBoard, IsNoMachine, IsNotLoaded, IsNotPlanned};
ghost use Rattle.elide_setup.specs.Rounds.{IsOut, IsPlannedOut};
ghost use Rattle.elide_setup.specs.Runs.{IsRunOf};
ghost use Rattle.elide_setup.specs.Schedules.{AreOf, ArePlanned, form_of, plan_form};
ghost use Rattle.elide_setup.specs.Setup.{IsSetup};

use crate::fault::Refusal;
use crate::plan::{Course, Plan};
use crate::shown::shown_memory;
use elide_program::{MemoryParts, Paths, ProgramFile, Settings};
use ia_image::Program;
use std::alloc::Global;
use tm_core::{Limits, Machine};
use tm_hist::Board;

/// A program, and what the options say of its machine.
#[derive(Drop)]
pub struct Setup {
    /// The program, with its cores and memory size.
    pub program: Program,
    /// How many lines a transaction can touch, and how many stores of a core may be pending.
    pub limits: Limits,
    /// What is printed of memory.
    pub parts: MemoryParts,
}

impl Setup {
    // Loads a file by the options.
    fn load(
        alloc: Global,
        settings: &Settings<'_>,
        file: &ProgramFile<'_>,
        starts: &[u32],
        parts: MemoryParts,
    ) -> Result<Setup, Refusal>
        ensures none { IfErr result (λ why. (cause : ProgramRefusal) × (why ≡ refusal_of cause)
            × TellsLoad file.now settings.now.memory starts.now cause) }
        ensures setup { IfOk result (λ setup. (length starts.now ≤ 64 → length starts.now ≡ settings.now.cores)
            → (length starts.now ≤ 64 → AreStarts file.now settings.now.entries settings.now.cores starts.now)
            → AreParts file.now settings.now.dumps.now settings.now.shows.now parts
            → IsSetup file.now settings.now setup) }
    {
        let program = file.load(alloc, settings, starts)?;
        Ok(Setup {
            program,
            limits: limits_of(settings),
            parts,
        })
    }

    /// The program of a file by the options.
    pub fn of_file(
        alloc: Global,
        settings: &Settings<'_>,
        file: &ProgramFile<'_>,
    ) -> Result<Setup, Refusal>
        ensures setup { IfOk result (IsSetup file.now settings.now) }
        ensures none { IfErr result (λ why. (cause : ProgramRefusal) × (why ≡ refusal_of cause)
            × IsNotLoaded file.now settings.now cause) }
    {
        let starts = file.starts(alloc, settings)?;
        let parts = MemoryParts::of_file(alloc, settings, file)?;
        Setup::load(alloc, settings, file, starts.as_slice(), parts)
    }
}

fn limits_of(settings: &Settings<'_>) -> Limits
    ensures { result ≡ record {
      read_lines = settings.now.reads;
      write_lines = settings.now.writes;
      stores = settings.now.stores;
    } }
{
    Limits {
        read_lines: settings.reads,
        write_lines: settings.writes,
        stores: settings.stores,
    }
}

/// The program of a file that was read, and its schedule.
pub fn planned<P: Paths>(
    alloc: Global,
    settings: &Settings<'_>,
    plan: Plan<'_>,
    file: &ProgramFile<'_>,
    paths: &mut P,
) -> Result<(Setup, Course), Refusal>
    ensures setup { IfOk result (λ r. IsSetup file.now settings.now r.0) }
    ensures course { IfOk result (λ r. (picks : List Pick) → AreOf r.1 picks →
        ArePlanned (P.content paths.old) plan.entry picks) }
    ensures draw { (drains : Bool) (options : ScheduleOptions) → IsAskedDraw drains options plan.entry →
        IfOk result (λ r. IsCourseDraw drains options r.1) }
    ensures listed { IfOk result (λ r. form_of r.1 ≡ plan_form plan.entry) }
    ensures out { IfOk result (λ r. (cores : ℕ) (steps : List (Pick × Outcome)) → IsOut r.1 cores steps →
        IsPlannedOut plan.entry cores steps) }
    ensures none { IfErr result (IsNotPlanned (P.content paths.old) file.now settings.now plan.entry) }
{
    let starts = file.starts(alloc, settings)?;
    let parts = MemoryParts::of_file(alloc, settings, file)?;
    let course = plan.course(alloc, paths)?;
    let setup = Setup::load(alloc, settings, file, starts.as_slice(), parts)?;
    Ok((setup, course))
}

/// A machine of the program before its first step.
pub fn new_machine(alloc: Global, setup: &Setup) -> Result<Machine, Refusal>
    ensures made { IfOk result (IsRunOf setup.now.program setup.now.limits []) }
    ensures cores { IfOk result (λ machine. length machine.views ≡ length setup.now.program.entries) }
    ensures none { IfErr result (IsNoMachine setup.now.limits) }
{
    machine_like(alloc, &setup.program, setup.limits)
}

/// A machine of a program before its first step, under these limits: of those of a board, too.
pub fn machine_like(alloc: Global, program: &Program, limits: Limits) -> Result<Machine, Refusal>
    ensures made { IfOk result (IsRunOf program.now limits []) }
    ensures cores { IfOk result (λ machine. length machine.views ≡ length program.now.entries) }
    ensures none { IfErr result (IsNoMachine limits) }
{
    let machine = Machine::new(alloc, program, limits)?;
    Ok(machine)
}

/// A board of the program with room for so many steps, where what is to be printed of memory is there.
pub fn new_board(alloc: Global, setup: &Setup, limit: u64) -> Result<Board, Refusal>
    ensures made { IfOk result (λ board. IsNew setup.now.program setup.now.limits limit board) }
    ensures none { IfErr result (IsNoBoard setup.now limit) }
{
    let board = Board::new(alloc, &setup.program, setup.limits, limit)?;
    // Before a step is made: what cannot be shown at the end is refused at once.
    shown_memory(board.machine().view(), &setup.parts, &[])?;
    Ok(board)
}
