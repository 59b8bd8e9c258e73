//! What a command that runs a schedule begins with, of one reading of FILE: `run` and `replay`.
//!
//! [`Opened::read`] is [`LoadedFile::with_course`], whose order of faults it has, without what these two do not ask
//! for. No machine is made here: that is `machine`.
//!
//! Other commands ask FILE for more, or for it at another time, and so do without it:
//!
//! - `debug` and `gdb` want FILE's symbols, too: with a schedule [`LoadedFile::with_course`] itself is theirs.
//! - `draw`, `page` and the sessions without a schedule take [`LoadedFile::of_text`]: what they read of a schedule's
//!   file comes behind FILE's program, and its faults with it.
//! - `hunt` and `outcomes` test their checks and names on the file that was read, before it is loaded, and `stats` and
//!   `threads` name by it what they count: they keep it in hand.

ghost use Rattle.std.specs.Prelude.{◌≡◌, ℕ, IfErr, IfOk, List};
ghost use Rattle.tm_model.specs.declared.outcome.Outcome.{Outcome};
ghost use Rattle.tm_model.specs.declared.outcome.Pick.{Pick};
ghost use Rattle.elide_program.specs.Settings.{has_store_buffer};
ghost use Rattle.elide_setup.specs.Refused.{IsNotScheduled};
ghost use Rattle.elide_setup.specs.Rounds.{IsAskedOut, IsOut};
ghost use Rattle.elide_setup.specs.Schedules.{AreAsked, AreOf, form_asked, form_of};
ghost use Rattle.elide_setup.specs.Setup.{IsAsked};

use crate::fault::Refusal;
use crate::loaded::LoadedFile;
use crate::machine::Setup;
use crate::plan::Course;
use elide_args::{MachineOptions, ScheduleOptions};
use elide_places::{Places, Wants};
use elide_program::Paths;
use std::alloc::Global;

/// A program that was read, and what is to be run of it.
#[derive(Drop)]
pub struct Opened {
    /// The program, and what the options say of its machine.
    pub setup: Setup,
    /// The steps that are to be made.
    pub course: Course,
    /// Where its instructions and labels stand; none of them, where they are not asked for.
    pub places: Places,
}

impl Opened {
    /// Reads FILE and loads it by the options, with the command's schedule, which is read before the program is loaded,
    /// and with its places, where they are wanted.
    pub fn read<P: Paths>(
        alloc: Global,
        machine: &MachineOptions<'_>,
        schedule: &ScheduleOptions<'_>,
        wants_places: bool,
        paths: &mut P,
    ) -> Result<Opened, Refusal>
        ensures setup { IfOk result (λ r. IsAsked (P.content paths.old machine.now.file.now) machine.now r.setup) }
        ensures course { IfOk result (λ r. (picks : List Pick) → AreOf r.course picks →
            AreAsked (has_store_buffer machine.now) (P.content paths.old) schedule.now picks) }
        ensures listed { IfOk result (λ r. form_of r.course ≡
            form_asked (has_store_buffer machine.now) schedule.now) }
        ensures out { IfOk result (λ r. (cores : ℕ) (steps : List (Pick × Outcome)) → IsOut r.course cores steps →
            IsAskedOut schedule.now cores steps) }
        ensures none { IfErr result (IsNotScheduled (P.content paths.old) machine.now schedule.now) }
    {
        let wants = Wants {
            places: wants_places,
            symbols: false,
        };
        let (loaded, course) = LoadedFile::with_course(alloc, machine, schedule, wants, paths)?;
        Ok(Opened {
            setup: loaded.setup,
            course,
            places: loaded.names.places,
        })
    }
}
