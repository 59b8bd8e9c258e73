//! The first pass over a run: how long it is, which lines of memory it touches, and which code it runs.
//!
//! [`surveyed`] makes a machine, tests the schedule's cores and what is shown of memory, and then walks the whole
//! schedule; no step of it is kept. Which steps stand in the page is known only behind it, so it goes by what is
//! asked for ([`Extent`]). Lines of variables are added afterwards, by [`note_shown`].

ghost use Rattle.std.specs.Prelude.{◌≡◌, Err, IfErr, length};
ghost use Rattle.elide_setup.specs.Faults.{want};
ghost use Rattle.elide_setup.specs.Refused.{IsNoCore};
ghost use Rattle.page_run.specs.Refused.{IsNotSurveyed};

use elide_device::Progress;
use elide_setup::{Course, Extent, Refusal, Setup, StepMaker, new_machine, shown_memory};
use ia_addr::Access;
use ia_word::Width;
use std::alloc::Global;
use tm_core::Machine;
use tm_model::{CoreState, Outcome, Pick};

/// How many bytes a line has.
pub const LINE: usize = 64;

/// How the steps of a run used a line of memory.
#[derive(Clone, Copy, PartialEq, Eq, Debug)]
pub struct UsedLine {
    /// Whether a step loaded from it or stored to it.
    pub touched: bool,
    /// Whether one loaded from it inside a transaction.
    pub read: bool,
    /// Whether one stored to it inside a transaction.
    pub written: bool,
}

/// What is known of a run behind its first pass.
#[derive(Drop)]
pub struct Survey {
    /// How many steps it has.
    pub made: u64,
    /// By its number, how each line of memory was used up to the last step that is asked for.
    pub lines: Vec<UsedLine>,
    /// By its distance from the first, whether an instruction at a byte of the code was to run in a step that is asked
    /// for.
    pub ran: Vec<bool>,
}

/// Runs a schedule to its end.
pub fn surveyed<G: Progress>(
    alloc: Global,
    setup: &Setup,
    course: &Course,
    extent: Extent,
    progress: &mut G,
) -> Result<Survey, Refusal>
    ensures refused { IfErr result (IsNotSurveyed setup.now course.now) }
{
    let machine = new_machine(alloc, setup)?;
    let cores = machine.cores();
    course.check_cores(cores)?;
    shown_memory(machine.view(), &setup.parts, &[])?;
    let survey = blank(alloc, setup, machine.view().len())?;
    let mut surveyor = Surveyor {
        machine,
        base: setup.program.base(),
        extent,
        survey,
    };
    let walked = course.walk(alloc, cores, false, &mut surveyor, progress);
    finished(surveyor, walked)
}

// What is known behind the last step.
fn finished(surveyor: Surveyor, walked: Result<Vec<Pick>, Refusal>) -> Result<Survey, Refusal>
    ensures refused { IfErr result (λ why. walked ≡ Err why) }
{
    let Surveyor {
        machine,
        base,
        extent,
        mut survey,
    } = surveyor;
    // The machine behind the last step stands in the page where that step does.
    if extent.reaches(survey.made.saturating_sub(1)) {
        survey.note_next(&machine, base);
    }
    match walked {
        Ok(_none) => Ok(survey),
        Err(refusal) => Err(refusal),
    }
}

// What is known before the first step.
fn blank(alloc: Global, setup: &Setup, size: usize) -> Result<Survey, Refusal>
    ensures refused { IfErr result (λ why. why ≡ want) }
{
    let unused = UsedLine {
        touched: false,
        read: false,
        written: false,
    };
    let lines = vec![in alloc; unused; size.div_ceil(LINE)]?;
    let ran = vec![in alloc; false; setup.program.code().len()]?;
    Ok(Survey {
        made: 0,
        lines,
        ran,
    })
}

// A machine whose steps are surveyed.
#[derive(Drop)]
struct Surveyor {
    machine: Machine,
    // The address of the first byte of the code.
    base: u32,
    extent: Extent,
    survey: Survey,
}

impl StepMaker for Surveyor {
    // The machine keeps its cores.
    ghost takes = { λ before steps after. length after.machine.views ≡ length before.machine.views };

    ghost refuses = { λ surveyor pick why. IsNoCore surveyor.machine pick why };

    fn make_step(&mut self, pick: Pick) -> Result<Outcome, Refusal> {
        let made = self.survey.made;
        // Before the step: behind it the machine tells only of the next.
        if self.extent.reaches(made) {
            self.survey.note_reach(&self.machine, pick.core);
        } else if made > 0 && self.extent.reaches(made - 1) {
            self.survey.note_next(&self.machine, self.base);
        }
        if self.extent.holds(made) {
            self.survey.note_code(&self.machine, pick.core, self.base);
        }
        let outcome = self.machine.make_step(pick)?;
        self.survey.made = made.saturating_add(1);
        Ok(outcome)
    }
}

impl Survey {
    // Takes in the lines that the next step of a core reaches.
    fn note_reach(&mut self, machine: &Machine, core: u8) {
        let Ok(preview) = machine.preview(core) else {
            return;
        };
        let is_inside = is_open(machine, core);
        note_lines(&mut self.lines, preview.reach.load, is_inside, false);
        note_lines(&mut self.lines, preview.reach.store, false, is_inside);
    }

    // Takes in the next instruction of a core.
    fn note_code(&mut self, machine: &Machine, core: u8, base: u32) {
        let Ok(regs) = machine.regs(core) else {
            return;
        };
        let Some(offset) = regs.eip.checked_sub(base) else {
            return;
        };
        if let Some(place) = self.ran.get_mut(offset as usize) {
            *place = true;
        }
    }

    // Takes in the next instruction of each core.
    fn note_next(&mut self, machine: &Machine, base: u32) {
        for core in 0..machine.cores() {
            self.note_code(machine, core, base);
        }
    }
}

/// Takes in the lines of a variable.
pub fn note_shown(lines: &mut Vec<UsedLine>, address: u32) {
    let access = Access {
        addr: address,
        width: Width::D,
    };
    note_lines(lines, Some(access), false, false);
}

fn is_open(machine: &Machine, core: u8) -> bool {
    matches!(machine.state(core), Ok(CoreState::Open(_)))
}

// Takes in the lines of an access, of which there are one or two.
fn note_lines(lines: &mut Vec<UsedLine>, access: Option<Access>, read: bool, written: bool) {
    let Some(access) = access else {
        return;
    };
    let first = access.addr;
    note_line(lines, first, read, written);
    if let Width::D = access.width {
        note_line(lines, first.saturating_add(3), read, written);
    }
}

// Takes in the line of an address, where memory has it.
fn note_line(lines: &mut Vec<UsedLine>, address: u32, read: bool, written: bool) {
    if let Some(line) = lines.get_mut(address as usize / LINE) {
        line.touched = true;
        line.read = line.read || read;
        line.written = line.written || written;
    }
}
