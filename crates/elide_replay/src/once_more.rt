//! `elide replay`: [`replay`] is the one call.
//!
//! `--json` with reasons is refused first. Then: the path of the record, the options, FILE, its schedule, a board with
//! just the room for it, the schedule's cores, the steps, what is shown of memory, the history on one memory. The
//! record is written before the first line is printed, and reasons stand above the state. Steps on one memory are
//! `tm_hist`'s.

ghost use Rattle.std.specs.Prelude.{◌≡◌, ◌⊎◌, ◌↔◌, ◌++◌, [], ℕ, IfErr, IfOk, List, None, OnOk, false, max, true};
ghost use Rattle.text_out.specs.Writing.{Wrote};
ghost use Rattle.tm_model.specs.declared.outcome.Outcome.{Outcome};
ghost use Rattle.tm_model.specs.declared.outcome.Pick.{Pick};
ghost use Rattle.tm_model.specs.Runs.{picks_of};
ghost use Rattle.elide_setup.specs.Recorded.{IsRecorded};
ghost use Rattle.elide_setup.specs.Refused.{IsAnyWant, IsCourseOf, IsNoBoard, IsNotScheduled, IsUnrecorded};
ghost use Rattle.elide_setup.specs.Refused.{IsUnwritten};
ghost use Rattle.elide_json.specs.Refused.{IsUnsent};
ghost use Rattle.elide_program.specs.Settings.{has_store_buffer};
ghost use Rattle.elide_setup.specs.Schedules.{AreOf, picks_made};
ghost use Rattle.elide_setup.specs.Setup.{IsAsked};
ghost use Rattle.elide_setup.specs.Shown.{shown_text};
ghost use Rattle.elide_replay.specs.Printed.{IsPrinted, IsTold};
ghost use Rattle.elide_replay.specs.Refused.{HasNoSerial, IsNotCompared, IsNotMade, IsRefused};
ghost use Rattle.elide_replay.specs.Replayed.{IsBoardOf};
ghost use Rattle.elide_setup.specs.Runs.{HasMade};
ghost use Rattle.tm_schedule.specs.Schedule.{schedule_text};
ghost use Rattle.elide_replay.specs.Told.{agreement_object, agreement_text};
ghost use Rattle.elide_setup.specs.Shown.{IsWhole};
ghost use Rattle.elide_why.specs.Refused.{IsNotRetold};
ghost use Rattle.tm_hist.specs.Board.{IsNew};
ghost use Rattle.tm_hist.specs.Replay.{Replays};

use crate::agreement::{Agreement, agreement_of};
use elide_args::ReplayOptions;
use elide_device::{Gathered, Progress};
use elide_json::{Subject, put_replay};
use elide_program::Paths;
use elide_setup::{
    Course, Fault, Opened, Refusal, Setup, ShownMemory, record, record_path, show, shown_memory,
};
use elide_why::{NamedPlaces, tell_history};
use std::alloc::Global;
use text_out::Out;
use tm_core::RunFault;
use tm_hist::{Board, Serial};

// A board whose history is run again: what each step of the way reads.
#[derive(Clone, Copy)]
struct Rerun<'a> {
    alloc: Global,
    options: &'a ReplayOptions<'a>,
    setup: &'a Setup,
    board: &'a Board,
    // Where reasons are asked for.
    places: Option<&'a NamedPlaces>,
    // Where the schedule is written.
    path: Option<&'a str>,
}

/// Runs a schedule on a board, and its history again on one memory; prints the aborts with their reasons where they are
/// asked for, the state, what is asked for of memory, and whether both ended alike, which they always do: a board's
/// history replays; as lines, or as one object (docs/JSON.md, "replay"), which has no reasons. `names` says whether a
/// reason names code where the subset ends. Gives the device back.
///
/// [`Refusal::Usage`] of `--json`, where reasons are asked for too.
pub fn replay<P: Paths, O: Out + Drop, G: Progress>(
    alloc: Global,
    options: &ReplayOptions<'_>,
    names: bool,
    paths: &mut P,
    out: O,
    progress: &mut G,
) -> Result<(Agreement, O), Refusal>
    ensures agrees { IfOk result (λ r. r.0 ≡ Agreement.Agrees) }
    ensures printed { IfOk result (λ r. IsPrinted (P.content paths.old) (P.content paths.new) options.now
        (O.device out).contents (O.device r.1).contents) }
    ensures refused { IfErr result (IsRefused (P.content paths.old) (P.are_one paths.old) options.now) }
{
    if options.is_json && options.explains {
        return Err(Refusal::Usage("--json"));
    }
    let path = record_path(options.record, options.machine.file, paths)?;
    let (setup, course, places) = begin(alloc, options, names, paths)?;
    let board = board_of(alloc, &setup, &course, progress)?;
    let rerun = Rerun {
        alloc,
        options,
        setup: &setup,
        board: &board,
        places: places.as_ref(),
        path,
    };
    compare(rerun, paths, out, progress)
}

// A board after the steps of a schedule, for which it has just the room.
fn board_of<G: Progress>(
    alloc: Global,
    setup: &Setup,
    course: &Course,
    progress: &mut G,
) -> Result<Board, Refusal>
    ensures made { IfOk result (IsBoardOf setup.now) }
    ensures steps { IfOk result (λ board. (steps : List (Pick × Outcome)) × HasMade board steps
        × AreOf course.now (picks_made steps)) }
    ensures none { IfErr result (IsNotMade setup.now course.now) }
{
    let mut board = new_board(alloc, setup, course.most())?;
    let cores = board.cores();
    course.check_cores(cores)?;
    course.walk(alloc, cores, false, &mut board, progress)?;
    Ok(board)
}

// A board before its first step, with room for so many, and for one at least.
fn new_board(alloc: Global, setup: &Setup, most: u64) -> Result<Board, Refusal>
    ensures made { IfOk result (λ board. IsNew setup.now.program setup.now.limits (max most 1) board) }
    ensures none { IfErr result (IsNoBoard setup.now (max most 1)) }
{
    let board = Board::new(alloc, &setup.program, setup.limits, most.max(1))?;
    Ok(board)
}

// Runs the board's history again, and prints what is asked for, and whether both ended alike.
fn compare<P: Paths, O: Out + Drop, G: Progress>(
    rerun: Rerun<'_>,
    paths: &mut P,
    out: O,
    progress: &mut G,
) -> Result<(Agreement, O), Refusal>
    requires { rerun.options.now.explains ≡ false → rerun.places ≡ None }
    ensures agrees { IfOk result (λ r. r.0 ≡ Agreement.Agrees) }
    ensures told { IfOk result (λ r. IsTold rerun.entry.setup.now rerun.entry.options.now rerun.entry.board.now
        (O.device out).contents (O.device r.1).contents) }
    ensures recorded { IfOk result (λ _. IsRecorded (P.content paths.new) rerun.entry.path
        (schedule_text (picks_of rerun.entry.board.now.history))) }
    ensures refused { IfErr result (IsNotCompared rerun.entry.setup.now rerun.entry.board.now rerun.entry.path) }
{
    let alloc = rerun.alloc;
    let board = rerun.board;
    // By this it is known that the machine is the run of the history, which is run again below.
    board.is_run();
    let sums = rerun.options.machine.shows.as_slice();
    // Before the record and the first line: what cannot be shown leaves both away.
    let memory = shown_memory(board.machine().view(), &rerun.setup.parts, sums)?;
    let serial = run_again(alloc, board)?;
    // Before the first line: a device that fails leaves a whole record.
    write_record(alloc, board, rerun.path, paths)?;
    let page = Gathered::new(out);
    let mut page = tell_reasons(rerun, page, progress)?;
    let agreement = tell_asked(rerun, &serial, memory, &mut page)?;
    let out = page.finish()?;
    Ok((agreement, out))
}

// Prints the aborts of the board's history with their reasons, where they are asked for, and gives the page back.
fn tell_reasons<O: Out + Drop, G: Progress>(
    rerun: Rerun<'_>,
    page: Gathered<O>,
    progress: &mut G,
) -> Result<Gathered<O>, Refusal>
    requires { rerun.options.now.explains ≡ false → rerun.places ≡ None }
    ensures told { IfOk result (λ given. (lines : List ℕ) × (rerun.entry.options.now.explains ≡ false → lines ≡ [])
        × Wrote (⟦<Gathered<O> as Out>⟧.device page) (⟦<Gathered<O> as Out>⟧.device given) lines) }
    ensures refused { IfErr result (IsNotRetold rerun.entry.board.now.limits) }
{
    let alloc = rerun.alloc;
    let board = rerun.board;
    let options = rerun.options;
    let file = options.machine.file;
    let places = rerun.places;
    match places {
        Some(places) => tell_history(alloc, board, file, places, page, progress),
        None => Ok(page),
    }
}

// Writes the schedule of a board's steps, where there is a path.
fn write_record<P: Paths>(
    alloc: Global,
    board: &Board,
    path: Option<&str>,
    paths: &mut P,
) -> Result<(), Refusal>
    ensures written { OnOk result
        (IsRecorded (P.content paths.new) path.entry (schedule_text (picks_of board.now.history))) }
    ensures failed { IfErr result (λ why. IsUnrecorded path.entry why ⊎ IsAnyWant why) }
{
    if path.is_none() {
        return Ok(());
    }
    match board.history().picks(alloc) {
        Ok(picks) => record(path, picks.as_slice(), paths),
        Err(_) => Err(Refusal::Fault(Fault::Run(RunFault::NoMemory))),
    }
}

// The program and the schedule, and the places of its source where the reasons of the aborts are asked for.
fn begin<P: Paths>(
    alloc: Global,
    options: &ReplayOptions<'_>,
    names: bool,
    paths: &mut P,
) -> Result<(Setup, Course, Option<NamedPlaces>), Refusal>
    ensures setup { IfOk result
        (λ r. IsAsked (P.content paths.old options.now.machine.file.now) options.now.machine r.0) }
    ensures course { IfOk result (λ r. IsCourseOf (has_store_buffer options.now.machine) (P.content paths.old)
        options.now.schedule r.1) }
    ensures places { IfOk result (λ r. options.now.explains ≡ false → r.2 ≡ None) }
    ensures none { IfErr result
        (IsNotScheduled (P.content paths.old) options.now.machine options.now.schedule) }
{
    let explains = options.explains;
    let opened = Opened::read(alloc, &options.machine, &options.schedule, explains, paths)?;
    let Opened {
        setup,
        course,
        places,
    } = opened;
    if explains {
        Ok((setup, course, Some(NamedPlaces { places, names })))
    } else {
        Ok((setup, course, None))
    }
}

// The serial run of a board's history.
fn run_again(alloc: Global, board: &Board) -> Result<Serial, Refusal>
    ensures serial { IfOk result (λ serial. Replays board.now serial) }
    ensures none { IfErr result HasNoSerial }
{
    let serial = board.replay(alloc)?;
    Ok(serial)
}

// Prints what is asked for of both runs, as lines or as one object.
fn tell_asked<O: Out>(
    rerun: Rerun<'_>,
    serial: &Serial,
    memory: ShownMemory<'_>,
    out: &mut O,
) -> Result<Agreement, Refusal>
    requires { IsWhole memory }
    ensures agrees { IfOk result
        (λ agreement. agreement ≡ Agreement.Agrees ↔ Replays rerun.entry.board.now serial.now) }
    ensures unsent { IfErr result (IsUnsent rerun.entry.board.now.machine.memory rerun.entry.setup.now.parts) }
    ensures lines { IfOk result (λ agreement. rerun.entry.options.now.is_json ≡ false
        → Wrote (O.device out.old) (O.device out.new)
        (shown_text rerun.entry.board.now.machine memory.entry ++ agreement_text agreement)) }
    ensures object { IfOk result (λ agreement. rerun.entry.options.now.is_json ≡ true
        → Wrote (O.device out.old) (O.device out.new)
        (agreement_object rerun.entry.board.now.machine rerun.entry.setup.now rerun.entry.options.now agreement)) }
{
    if rerun.options.is_json {
        tell_object(rerun, serial, out)
    } else {
        tell(rerun.board, serial, memory, out)
    }
}

// Prints both runs as one object.
fn tell_object<O: Out>(rerun: Rerun<'_>, serial: &Serial, out: &mut O) -> Result<Agreement, Refusal>
    ensures agrees { IfOk result
        (λ agreement. agreement ≡ Agreement.Agrees ↔ Replays rerun.entry.board.now serial.now) }
    ensures unsent { IfErr result (IsUnsent rerun.entry.board.now.machine.memory rerun.entry.setup.now.parts) }
    ensures told { IfOk result (λ agreement. Wrote (O.device out.old) (O.device out.new)
        (agreement_object rerun.entry.board.now.machine rerun.entry.setup.now rerun.entry.options.now agreement)) }
{
    let board = rerun.board;
    let agreement = agreement_of(board, serial);
    let subject = Subject {
        machine: board.machine(),
        parts: &rerun.setup.parts,
        texts: rerun.options.machine.shows.as_slice(),
    };
    put_replay(
        rerun.alloc,
        subject,
        agreement.is_alike(),
        agreement.status(),
        out,
    )?;
    Ok(agreement)
}

// Prints the state, what is asked for of memory, and whether both runs ended alike.
fn tell<O: Out>(
    board: &Board,
    serial: &Serial,
    memory: ShownMemory<'_>,
    out: &mut O,
) -> Result<Agreement, Refusal>
    requires { IsWhole memory }
    ensures agrees { IfOk result (λ agreement. agreement ≡ Agreement.Agrees ↔ Replays board.now serial.now) }
    ensures unwritten { IfErr result IsUnwritten }
    ensures told { IfOk result (λ agreement. Wrote (O.device out.old) (O.device out.new)
        (shown_text board.now.machine memory.entry ++ agreement_text agreement)) }
{
    let agreement = agreement_of(board, serial);
    show(board.machine(), memory, out)?;
    out.put(text_of(agreement))?;
    Ok(agreement)
}

fn text_of(agreement: Agreement) -> &'static [u8]
    ensures { result.now ≡ agreement_text agreement }
{
    match agreement {
        Agreement::Agrees => b"agree\n",
        Agreement::Differs => b"differ\n",
    }
}
