//! FILE's program, loaded by the options, and what else a command asks of FILE, all of one reading of it.
//!
//! [`LoadedFile::of_text`] is for who has read FILE and its schedule's options by itself: it tells the faults of FILE's
//! text, then of the loading. [`LoadedFile::with_course`] goes in the order in which the faults of a command with a
//! schedule are told: the machine's options, the schedule's, FILE, the program in it, and what [`planned`] tells.
//! FILE's names are taken last, and only memory can be wanting for them. No machine is made here: that is `machine`.

ghost use Rattle.std.specs.Prelude.{IfErr, IfOk};
ghost use Rattle.elide_setup.specs.Loaded.{IsLoaded, IsLoadedWith};
ghost use Rattle.elide_setup.specs.Refused.{GivesNoProgram, IsNotScheduled};

use crate::fault::Refusal;
use crate::machine::{Setup, planned};
use crate::plan::{Course, Plan};
use elide_args::{MachineOptions, ScheduleOptions};
use elide_places::{FileNames, Wants};
use elide_program::{Form, Paths, ProgramFile, Settings, has_store_buffer, read_file};
use std::alloc::Global;

/// A program that was read and loaded, and what else its file tells.
#[derive(Drop)]
pub struct LoadedFile {
    /// The program, and what the options say of its machine.
    pub setup: Setup,
    /// What it is written as.
    pub form: Form,
    /// Where its instructions and labels stand, and its symbols, as far as they are wanted.
    pub names: FileNames,
}

impl LoadedFile {
    /// A text as a program, loaded by the options.
    pub fn of_text(
        alloc: Global,
        settings: &Settings<'_>,
        text: &[u8],
        wants: Wants,
    ) -> Result<LoadedFile, Refusal>
        ensures loaded { IfOk result (IsLoaded text.now settings.now wants) }
        ensures none { IfErr result (GivesNoProgram text.now settings.now) }
    {
        let file = ProgramFile::read(alloc, text)?;
        let setup = Setup::of_file(alloc, settings, &file)?;
        let names = FileNames::of_file(alloc, &file, text, wants)?;
        Ok(LoadedFile {
            setup,
            form: file.form(),
            names,
        })
    }

    /// Reads FILE and loads it by the options, with the command's schedule, which is read before the program is loaded.
    pub fn with_course<P: Paths>(
        alloc: Global,
        machine: &MachineOptions<'_>,
        schedule: &ScheduleOptions<'_>,
        wants: Wants,
        paths: &mut P,
    ) -> Result<(LoadedFile, Course), Refusal>
        ensures loaded { IfOk result
            (λ r. IsLoadedWith (P.content paths.old) machine.now schedule.now wants r.0 r.1) }
        ensures none { IfErr result (IsNotScheduled (P.content paths.old) machine.now schedule.now) }
    {
        let settings = Settings::read(machine)?;
        let plan = Plan::read(alloc, schedule, has_store_buffer(machine))?;
        let text = read_file(machine.file, paths)?;
        let file = ProgramFile::read(alloc, text.as_slice())?;
        let (setup, course) = planned(alloc, &settings, plan, &file, paths)?;
        let names = FileNames::of_file(alloc, &file, text.as_slice(), wants)?;
        let form = file.form();
        Ok((LoadedFile { setup, form, names }, course))
    }
}
