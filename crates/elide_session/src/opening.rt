//! What a session begins with, and the fault that ends it early.
//!
//! [`opened`] tells faults in this order: the machine's options, the schedule's, FILE, the program, its schedule, the
//! names, the cores of a list, the board, a draw. A draw is made before the session begins, on a machine of its own, as
//! far as a session can ask for it; where no schedule is said, its faults are left out. The board has made no step.
//! What is asked of it is served by `debugger` and `gdb_server`.

ghost use Rattle.std.specs.Prelude.{◌≡◌, IfErr, IfOk, false, is_some, true};
ghost use Rattle.elide_session.specs.Opened.{AreDrawn, IsOpened, IsOutUnder, IsPlan, is_scheduled, limited_course};
ghost use Rattle.elide_session.specs.Opened.{NonePends, says_draw};
ghost use Rattle.elide_session.specs.Refused.{IsNotOpened, IsUndrawn, session_fault};
ghost use Rattle.elide_setup.specs.Drawing.{ComeAs};
ghost use Rattle.elide_setup.specs.Faults.{fault_number};
ghost use Rattle.elide_setup.specs.Schedules.{AreOf, form_of};
ghost use Rattle.tm_debug.specs.Faults.{session_code};

use debug_command::Names;
use elide_args::{MachineOptions, ScheduleOptions};
use elide_device::Silent;
use elide_places::{FileNames, Wants};
use elide_program::{Paths, Settings, read_file};
use elide_setup::{Course, Drawn, Fault, LoadedFile, Refusal, Setup, new_board, new_machine};
use std::alloc::Global;
use tm_debug::SessionFault;
use tm_hist::Board;
use tm_model::Pick;

/// How many steps a session can make.
const MOST_STEPS: u64 = 1_000_000;

/// How many steps of a schedule a session can ask for: those that it makes, and the one that it has no room for.
const MOST_DRAWN: u32 = 1_000_001;

/// What a session begins with.
#[derive(Drop)]
pub struct Opening {
    /// The board of a machine before its first step, with room for 1,000,000 of them.
    pub board: Board,
    /// The picks of the schedule: none, where no schedule is asked for. Of a schedule that is drawn at most 1,000,001,
    /// one more than a session can make, so that it is told apart whether the schedule ends or the session does.
    pub plan: Vec<Pick>,
    /// The symbols of the program, and its labels, where they are wanted.
    pub names: Names,
}

/// Reads FILE, loads it by the options, and reads the schedule, where one is asked for. A session whose answers tell no
/// labels wants none.
pub fn opened<P: Paths>(
    alloc: Global,
    machine: &MachineOptions<'_>,
    schedule: &ScheduleOptions<'_>,
    wants_labels: bool,
    paths: &mut P,
) -> Result<Opening, Refusal>
    ensures opened { IfOk result
        (λ r. IsOpened (P.content paths.old machine.now.file.now) machine.now r.board r.names.symbols.items) }
    ensures plan { IfOk result (λ r. IsPlan (P.content paths.old) schedule.now r.board r.plan.items) }
    ensures none { IfErr result (IsNotOpened (P.content paths.old) machine.now schedule.now) }
{
    if is_scheduled(schedule) {
        return opened_scheduled(alloc, machine, schedule, wants_labels, paths);
    }
    let settings = Settings::read(machine)?;
    let text = read_file(machine.file, paths)?;
    let wants = wants_of(wants_labels);
    let loaded = LoadedFile::of_text(alloc, &settings, text.as_slice(), wants)?;
    let board = new_board(alloc, &loaded.setup, MOST_STEPS)?;
    Ok(Opening {
        board,
        plan: Vec::new(alloc),
        names: names_of(loaded.names),
    })
}

/// The fault that ended a session early. The board that comes with it is not asked for.
pub fn session_fault(fault: &SessionFault) -> Fault
    ensures number { fault_number result ≡ session_code fault.now }
    ensures kind { result ≡ session_fault fault.now }
{
    match fault {
        SessionFault::Read(_) => Fault::SessionRead,
        SessionFault::Write(_) => Fault::SessionWrite,
        SessionFault::NoMemory(_) => Fault::NoSession,
    }
}

/// Whether a schedule is asked for, which may have no steps. What is said of a draw alone is refused where the schedule
/// is read.
pub fn is_scheduled(schedule: &ScheduleOptions<'_>) -> bool
    ensures { result ≡ is_scheduled schedule.now }
{
    schedule.steps.is_some()
        || schedule.path.is_some()
        || schedule.in_turn
        || schedule.random.is_some()
        || says_draw(schedule)
}

// Whether something is said of a schedule that is drawn.
fn says_draw(schedule: &ScheduleOptions<'_>) -> bool
    ensures { result ≡ says_draw schedule.now }
{
    schedule.events.is_some() || schedule.seed.is_some() || schedule.limit.is_some()
}

// What [`opened`] does where a schedule is asked for. It is read before the program is loaded.
fn opened_scheduled<P: Paths>(
    alloc: Global,
    machine: &MachineOptions<'_>,
    schedule: &ScheduleOptions<'_>,
    wants_labels: bool,
    paths: &mut P,
) -> Result<Opening, Refusal>
    requires { is_scheduled schedule.now ≡ true }
    ensures opened { IfOk result
        (λ r. IsOpened (P.content paths.old machine.now.file.now) machine.now r.board r.names.symbols.items) }
    ensures plan { IfOk result (λ r. IsPlan (P.content paths.old) schedule.now r.board r.plan.items) }
    ensures none { IfErr result (IsNotOpened (P.content paths.old) machine.now schedule.now) }
{
    let wants = wants_of(wants_labels);
    let (loaded, course) = LoadedFile::with_course(alloc, machine, schedule, wants, paths)?;
    let course = limited(course);
    course.check_cores(loaded.setup.program.cores())?;
    let board = new_board(alloc, &loaded.setup, MOST_STEPS)?;
    let plan = plan_of(alloc, &loaded.setup, course)?;
    Ok(Opening {
        board,
        plan,
        names: names_of(loaded.names),
    })
}

// What a session asks of FILE: its symbols, and its places where labels are wanted.
fn wants_of(wants_labels: bool) -> Wants
    ensures { result.symbols ≡ true }
{
    Wants {
        places: wants_labels,
        symbols: true,
    }
}

// The names that a session knows of FILE.
fn names_of(names: FileNames) -> Names
    ensures { result.symbols ≡ names.symbols }
{
    Names {
        symbols: names.symbols,
        labels: names.places.into_labels(),
    }
}

// A course of which no more steps are drawn than a session can ask for.
fn limited(course: Course) -> Course
    ensures { result ≡ limited_course course }
{
    match course {
        Course::Listed(steps) => Course::Listed(steps),
        Course::Drawn(drawn) => Course::Drawn(Drawn {
            most: drawn.most.min(MOST_DRAWN),
            ..drawn
        }),
    }
}

// The picks of a schedule.
fn plan_of(alloc: Global, setup: &Setup, course: Course) -> Result<Vec<Pick>, Refusal>
    ensures picks { NonePends setup.now course → IfOk result (λ plan. AreOf course plan.items) }
    ensures drawn { IfOk result (λ plan. is_some (form_of course) ≡ true →
        AreDrawn setup.now.program setup.now.limits (IsOutUnder course) plan.items) }
    ensures none { IfErr result (IsUndrawn setup.now) }
{
    match course {
        Course::Listed(steps) => Ok(steps),
        Course::Drawn(drawn) => drawn_plan(alloc, setup, drawn),
    }
}

// Those of one that is drawn, as a run on a machine of its own draws it.
fn drawn_plan(alloc: Global, setup: &Setup, drawn: Drawn) -> Result<Vec<Pick>, Refusal>
    ensures come { setup.now.limits.stores ≡ 0 → drawn.drains ≡ false →
        IfOk result (λ plan. ComeAs drawn plan.items) }
    ensures run { IfOk result
        (λ plan. AreDrawn setup.now.program setup.now.limits (IsOutUnder (Course.Drawn drawn)) plan.items) }
    ensures none { IfErr result (IsUndrawn setup.now) }
{
    let mut machine = new_machine(alloc, setup)?;
    let course = Course::Drawn(drawn);
    course.walk(
        alloc,
        setup.program.cores(),
        true,
        &mut machine,
        &mut Silent,
    )
}
