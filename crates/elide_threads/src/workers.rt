//! `elide threads`: [`threads`] is the one call.
//!
//! Faults come in this order: `--json` with reasons and no counts, the machine's options, `--budget`, `--burst`,
//! `--events`, `--seed`, `--record`, FILE, the program, the board, room for the record, the workers. Then the record is
//! written, and only then something printed: the reasons, and below them the counts, or the state and what is shown of
//! memory. Reasons and counts are made of the history, behind the run; the workers themselves are `tm_work`'s.

ghost use Rattle.std.specs.Prelude.{◌≡◌, ◌*◌, ◌⊎◌, [], ℕ, Bool, IfErr, IfOk, List, MatchResult, None, Option, Some};
ghost use Rattle.std.specs.Prelude.{codes, false};
ghost use Rattle.std.specs.Prelude.{length, replicate, true};
ghost use Rattle.std.specs.Option.{option_copied};
ghost use Rattle.text_out.specs.Writing.{Wrote};
ghost use Rattle.elide_program.specs.Files.{Gives, most_bytes};
ghost use Rattle.elide_program.specs.ProgramFile.{IsFile};
ghost use Rattle.elide_program.specs.declared.file.ProgramFile.{ProgramFile};
ghost use Rattle.elide_program.specs.Settings.{AreSettings, number_or, number_said};
ghost use Rattle.elide_setup.specs.Faults.{fault_number, refusal_of, want};
ghost use Rattle.elide_setup.specs.Misuse.{IsMisuse};
ghost use Rattle.elide_setup.specs.Recorded.{IsRecorded};
ghost use Rattle.elide_setup.specs.Refused.{IsAnyWant, IsNoBoard, IsUnrecorded};
ghost use Rattle.elide_setup.specs.Setup.{IsSetup};
ghost use Rattle.elide_setup.specs.Shown.{IsShownOf, shown_text};
ghost use Rattle.tm_hist.specs.Board.{IsNew, ShownBoard as Board};
ghost use Rattle.elide_setup.specs.declared.machine.Setup.{Setup};
ghost use Rattle.elide_setup.specs.declared.shown.ShownMemory.{ShownMemory};
ghost use Rattle.tm_schedule.specs.Schedule.{schedule_text};
ghost use Rattle.elide_why.specs.Refused.{IsNotRetold};
ghost use Rattle.elide_threads.specs.Burst.{burst_said};
ghost use Rattle.elide_threads.specs.Plans.{plan_said};
ghost use Rattle.elide_threads.specs.Printed.{IsPrinted, IsTold, IsWorked, board_object};
ghost use Rattle.elide_threads.specs.Refused.{IsMisworked, IsNoPlan, IsNoWork, IsNotTold, IsNotWorked, IsRefused};
ghost use Rattle.tm_model.specs.Runs.{picks_of};
ghost use Rattle.tm_work.specs.Faults.{work_number};
ghost use Rattle.tm_work.specs.Events.{TellDrawn};
ghost use Rattle.tm_work.specs.Seats.{new_part};
ghost use Rattle.tm_work.specs.Workers.{IsReport};

use crate::record::Record;
use crate::watch::SharedProgress;
use elide_args::ThreadsOptions;
use elide_device::{Gathered, Progress};
use elide_json::put_threads;
use elide_places::Places;
use elide_program::{Paths, ProgramFile, ProgramRefusal, Settings, number_of, read_file};
use elide_setup::{Fault, Refusal, Setup, events_of, new_board, record_path, show, shown_memory};
use elide_stats::tell_counts;
use elide_why::{NamedPlaces, tell_history};
use std::alloc::Global;
use std::sync::Wait;
use std::thread::Threads;
use text_out::Out;
use tm_hist::Board;
use tm_pick::Events;
use tm_work::{Burst, EventPlan, WorkFault, run_steadily};

// What events are drawn from where no seed is given.
const FIRST_SEED: u32 = 1;

/// Runs each core on a thread of its own, writes the schedule that came about where it is asked for, and prints the
/// aborts with their reasons where these are asked for, and then what the transactions came to, or where that is not
/// asked for the state and what is asked for of memory, as lines or as one object (docs/JSON.md, "threads"), which has
/// no reasons. While the cores run, `progress` is told how many steps the history has. `names` says whether a reason
/// names code where the subset ends. Gives the device back.
///
/// [`Refusal::Usage`] of `--json`, where reasons and no counts are asked for too.
pub fn threads<R: Threads + Wait + Sync + AllocGlobal, P: Paths, O: Out + Drop, G: Progress + Send>(
    rt: &R,
    options: &ThreadsOptions<'_>,
    names: bool,
    paths: &mut P,
    out: O,
    progress: &mut G,
) -> Result<O, Refusal>
    ensures printed { IfOk result (λ given. IsPrinted (P.content paths.old) (P.content paths.new) options.now
        (O.device out).contents (O.device given).contents) }
    ensures refused { IfErr result (IsRefused (P.content paths.old) (P.are_one paths.old) options.now) }
{
    if options.is_json && !options.counts && options.explains {
        return Err(Refusal::Usage("--json"));
    }
    let settings = Settings::read(&options.machine)?;
    let work = Work::read(options, names, paths)?;
    let asked = Asked {
        options,
        settings,
        work,
    };
    let text = read_file(options.machine.file, paths)?;
    let end = threads_of_text(rt, &asked, text.as_slice(), paths, out, progress);
    drop(text);
    end
}

// What is asked of the workers, and how it is told what they did.
#[derive(Clone, Copy)]
struct Work<'a> {
    // How many steps each core makes.
    budget: u32,
    // How many of them before another core can come between.
    burst: Burst,
    // Which of them come under an event from outside of the program.
    plan: EventPlan,
    // Where the schedule that comes about is written.
    path: Option<&'a str>,
    // Whether reasons of its aborts name code where the subset ends.
    names: bool,
}

impl<'a> Work<'a> {
    fn read<P: Paths>(
        options: &ThreadsOptions<'a>,
        names: bool,
        paths: &mut P,
    ) -> Result<Work<'a>, Refusal>
        ensures budget { IfOk result (λ work. number_said (option_copied options.now.budget) ≡ Some work.budget) }
        ensures burst { IfOk result (λ work. burst_said (option_copied options.now.burst) ≡ Some work.burst) }
        ensures plan { IfOk result (λ work. plan_said (option_copied options.now.events)
            (option_copied options.now.seed) ≡ Some work.plan) }
        ensures path { IfOk result (λ work. work.path ≡ options.now.«record») }
        ensures kept { (other : List ℕ) → P.content paths.new other ≡ P.content paths.old other }
        ensures refused { IfErr result (IsMisworked (P.are_one paths.old) options.now) }
    {
        let budget = number_of(options.budget, "--budget")?;
        let burst = burst_of(options.burst)?;
        let plan = plan_of(options)?;
        let path = record_path(options.record, options.machine.file, paths)?;
        Ok(Work {
            budget,
            burst,
            plan,
            path,
            names,
        })
    }
}

// What is asked for: the options, and what they say of the machine and of the workers.
#[derive(Clone, Copy)]
struct Asked<'a> {
    options: &'a ThreadsOptions<'a>,
    settings: Settings<'a>,
    work: Work<'a>,
}

// The program that the workers run.
#[derive(Drop)]
struct Loaded<'a> {
    file: ProgramFile<'a>,
    // By the options.
    setup: Setup,
    // What the reasons of aborts name its places by, where they are asked for.
    places: Option<NamedPlaces>,
}

// What [`threads`] does once FILE is read, over its text.
fn threads_of_text<
    R: Threads + Wait + Sync + AllocGlobal,
    P: Paths,
    O: Out + Drop,
    G: Progress + Send,
>(
    rt: &R,
    asked: &Asked<'_>,
    text: &[u8],
    paths: &mut P,
    out: O,
    progress: &mut G,
) -> Result<O, Refusal>
    ensures refused { (content : List ℕ → Option (List ℕ)) (are_one : List ℕ → List ℕ → Option Bool) →
        Gives (content asked.now.options.now.machine.file.now) most_bytes text.now
        → AreSettings asked.now.options.now.machine asked.now.settings →
        number_said (option_copied asked.now.options.now.budget) ≡ Some asked.now.work.budget →
        plan_said (option_copied asked.now.options.now.events) (option_copied asked.now.options.now.seed)
        ≡ Some asked.now.work.plan → asked.now.work.path ≡ asked.now.options.now.«record» →
        IfErr result (IsRefused content are_one asked.now.options.now) }
    ensures told { IfOk result (λ given. (file : ProgramFile) × (setup : Setup) × (board : Board) × IsFile text.now file
        × IsSetup file asked.now.settings setup × IsWorked setup asked.now.work.budget asked.now.work.plan board
        × IsTold asked.now.options.now setup board (O.device out).contents (O.device given).contents
        × IsRecorded (P.content paths.new) asked.now.work.path (schedule_text (picks_of board.history))) }
{
    let alloc = rt.alloc();
    let file = ProgramFile::read(alloc, text)?;
    let setup = Setup::of_file(alloc, &asked.settings, &file)?;
    let places = places_of(alloc, asked, &file, text)?;
    let loaded = Loaded {
        file,
        setup,
        places,
    };
    let end = run_and_tell(rt, asked, &loaded, paths, out, progress);
    drop(loaded);
    end
}

// Runs each core on a thread of its own, and prints what is asked for.
fn run_and_tell<
    R: Threads + Wait + Sync + AllocGlobal,
    P: Paths,
    O: Out + Drop,
    G: Progress + Send,
>(
    rt: &R,
    asked: &Asked<'_>,
    loaded: &Loaded<'_>,
    paths: &mut P,
    out: O,
    progress: &mut G,
) -> Result<O, Refusal>
    requires { asked.now.options.now.explains ≡ false → loaded.now.places ≡ None }
    ensures refused { IfErr result
        (IsNoWork loaded.now.setup asked.now.work.budget asked.now.work.plan asked.now.work.path) }
    ensures told { IfOk result (λ given. (board : Board)
        × IsWorked loaded.now.setup asked.now.work.budget asked.now.work.plan board
        × IsTold asked.now.options.now loaded.now.setup board (O.device out).contents (O.device given).contents
        × IsRecorded (P.content paths.new) asked.now.work.path (schedule_text (picks_of board.history))) }
{
    let alloc = rt.alloc();
    let board = open_board(alloc, &loaded.setup, asked.work.budget)?;
    let board = make_and_record(rt, board, asked.work, paths, progress)?;
    let end = tell_run(alloc, asked.options, loaded, &board, out, progress);
    drop(board);
    end
}

// The board after each core made so many steps, and its schedule, written where it is asked for.
fn make_and_record<R: Threads + Wait + Sync + AllocGlobal, P: Paths, G: Progress + Send>(
    rt: &R,
    board: Board,
    work: Work<'_>,
    paths: &mut P,
    progress: &mut G,
) -> Result<Board, Refusal>
    ensures report { IfOk result (λ last. (steps : List ℕ)
        × IsReport board (replicate (length board.program.entries) work.entry.budget) last steps) }
    ensures events { IfOk result (λ last. TellDrawn work.entry.plan.events (new_part board last)) }
    ensures recorded { IfOk result (λ last. IsRecorded (P.content paths.new) work.entry.path
        (schedule_text (picks_of last.history))) }
    ensures refused { IfErr result (λ why. IsNotWorked why ⊎ (IsUnrecorded work.entry.path why ⊎ IsAnyWant why)) }
{
    // Before the workers: a run that cannot be recorded is not made.
    let record = record_of(rt.alloc(), work.path, &board)?;
    let board = make_steps(rt, board, work, progress)?;
    record.write(&board, paths)?;
    Ok(board)
}

// Prints what is asked for of a run.
fn tell_run<O: Out + Drop, G: Progress>(
    alloc: Global,
    options: &ThreadsOptions<'_>,
    loaded: &Loaded<'_>,
    board: &Board,
    out: O,
    progress: &mut G,
) -> Result<O, Refusal>
    requires { options.now.explains ≡ false → loaded.now.places ≡ None }
    ensures told { IfOk result
        (λ given. IsTold options.now loaded.now.setup board.now (O.device out).contents (O.device given).contents) }
    ensures refused { IfErr result (IsNotTold loaded.now.setup board.now) }
{
    let page = Gathered::new(out);
    let mut page = tell_reasons(alloc, options, loaded, board, page, progress)?;
    if options.counts {
        tell_counts(
            alloc,
            board,
            &loaded.file,
            options.is_json,
            &mut page,
            progress,
        )?;
    } else {
        tell_asked(alloc, options, board, &loaded.setup, &mut page)?;
    }
    Ok(page.finish()?)
}

// Prints the aborts of a run with their reasons, where they are asked for, and gives the page back.
fn tell_reasons<O: Out + Drop, G: Progress>(
    alloc: Global,
    options: &ThreadsOptions<'_>,
    loaded: &Loaded<'_>,
    board: &Board,
    page: Gathered<O>,
    progress: &mut G,
) -> Result<Gathered<O>, Refusal>
    requires { options.now.explains ≡ false → loaded.now.places ≡ None }
    ensures told { IfOk result (λ given. (lines : List ℕ) × (options.now.explains ≡ false → lines ≡ [])
        × Wrote (⟦<Gathered<O> as Out>⟧.device page) (⟦<Gathered<O> as Out>⟧.device given) lines) }
    ensures refused { IfErr result (IsNotRetold board.now.limits) }
{
    let file = options.machine.file;
    let places = loaded.places.as_ref();
    match places {
        Some(places) => tell_history(alloc, board, file, places, page, progress),
        None => Ok(page),
    }
}

// The places of the program, where the reasons of the aborts are asked for.
fn places_of(
    alloc: Global,
    asked: &Asked<'_>,
    file: &ProgramFile<'_>,
    text: &[u8],
) -> Result<Option<NamedPlaces>, Refusal>
    ensures places { IfOk result (λ places. asked.now.options.now.explains ≡ false → places ≡ None) }
    ensures want { IfErr result (λ why. why ≡ want) }
{
    if asked.options.explains {
        let places = Places::of_file(alloc, file, text)?;
        let names = asked.work.names;
        Ok(Some(NamedPlaces { places, names }))
    } else {
        Ok(None)
    }
}

// How many steps a core makes before another can come between.
fn burst_of(text: Option<&str>) -> Result<Burst, ProgramRefusal>
    ensures { MatchResult result
        (λ burst. burst_said (option_copied text.entry) ≡ Some burst)
        (λ why. (burst_said (option_copied text.entry) ≡ None) × IsMisuse (codes "--burst") (refusal_of why)) }
{
    if text.is_none() {
        return Ok(Burst::Varying);
    }
    match number_of(text, "--burst")? {
        0 => Err(ProgramRefusal::Usage("--burst")),
        steps => Ok(Burst::Fixed(steps)),
    }
}

// Which steps come under an event. A seed without events is a misuse.
fn plan_of(options: &ThreadsOptions<'_>) -> Result<EventPlan, Refusal>
    ensures { MatchResult result
        (λ plan. plan_said (option_copied options.now.events) (option_copied options.now.seed) ≡ Some plan)
        (λ why. (plan_said (option_copied options.now.events) (option_copied options.now.seed) ≡ None) × IsNoPlan why) }
{
    match (options.events, options.seed) {
        (Some(text), seed) => drawn_plan(text, seed),
        (None, Some(_)) => Err(Refusal::Usage("--seed")),
        (None, None) => Ok(EventPlan {
            events: Events::Never,
            seed: FIRST_SEED,
        }),
    }
}

// What [`plan_of`] answers where events are asked for.
fn drawn_plan(text: &str, seed: Option<&str>) -> Result<EventPlan, Refusal>
    ensures { MatchResult result
        (λ plan. plan_said (Some text.now) (option_copied seed.entry) ≡ Some plan)
        (λ why. (plan_said (Some text.now) (option_copied seed.entry) ≡ None) × IsNoPlan why) }
{
    let events = events_of(text)?;
    let seed = seed_of(seed)?;
    Ok(EventPlan { events, seed })
}

// What the events are drawn by.
fn seed_of(text: Option<&str>) -> Result<u32, ProgramRefusal>
    ensures { MatchResult result
        (λ seed. number_or 1 (option_copied text.entry) ≡ Some seed)
        (λ why. (number_or 1 (option_copied text.entry) ≡ None) × IsMisuse (codes "--seed") (refusal_of why)) }
{
    if text.is_none() {
        return Ok(FIRST_SEED);
    }
    number_of(text, "--seed")
}

// Room for the schedule, where it is asked for.
fn record_of<'a>(alloc: Global, path: Option<&'a str>, board: &Board) -> Result<Record<'a>, Fault>
    ensures path { IfOk result (λ room. room.path ≡ path.entry) }
    ensures none { IfOk result (λ room. room.picks.items ≡ []) }
    ensures want { IfErr result (λ fault. fault ≡ Fault.NoWorkers) }
{
    match Record::reserve(alloc, path, board) {
        Ok(record) => Ok(record),
        Err(_) => Err(Fault::NoWorkers),
    }
}

// A board with room for so many steps of each core.
fn open_board(alloc: Global, setup: &Setup, budget: u32) -> Result<Board, Refusal>
    ensures none { IfErr result (IsNoBoard setup.now (length setup.now.program.entries * budget)) }
    ensures made { IfOk result (λ board.
        IsNew setup.now.program setup.now.limits (length setup.now.program.entries * budget) board) }
{
    let limit = u64::from(setup.program.cores()) * u64::from(budget);
    new_board(alloc, setup, limit)
}

// The board after each core made so many steps on a thread of its own. Their progress is told while they run.
fn make_steps<R: Threads + Wait + Sync + AllocGlobal, G: Progress + Send>(
    rt: &R,
    board: Board,
    work: Work<'_>,
    progress: &mut G,
) -> Result<Board, Refusal>
    ensures report { IfOk result (λ last. (steps : List ℕ)
        × IsReport board (replicate (length board.program.entries) work.entry.budget) last steps) }
    ensures events { IfOk result (λ last. TellDrawn work.entry.plan.events (new_part board last)) }
    ensures refused { IfErr result IsNotWorked }
{
    let alloc = rt.alloc();
    let Ok(budgets) = vec![in alloc; work.budget; usize::from(board.cores())] else {
        return Err(Refusal::Fault(Fault::NoWorkers));
    };
    let told = SharedProgress::new(progress, board.limit());
    let report = run_steadily(
        rt,
        alloc,
        board,
        budgets.as_slice(),
        work.burst,
        work.plan,
        &told,
    );
    drop(told);
    progress.end();
    match report {
        Ok(report) => Ok(report.board),
        Err(fault) => Err(Refusal::Fault(fault_of(&fault))),
    }
}

// Why the workers did not all run. The board that comes with it is not asked for.
fn fault_of(fault: &WorkFault) -> Fault
    ensures number { fault_number result ≡ work_number fault.now }
    ensures kind { IsNotWorked (Refusal.Fault result) }
{
    match fault {
        WorkFault::SpawnRefused(_, _) => Fault::SpawnRefused,
        WorkFault::NoMemory(_) => Fault::NoWorkers,
    }
}

// Prints the state and what is asked for of memory, as lines or as one object.
fn tell_asked<O: Out>(
    alloc: Global,
    options: &ThreadsOptions<'_>,
    board: &Board,
    setup: &Setup,
    out: &mut O,
) -> Result<(), Refusal>
    ensures refused { IfErr result (IsNotTold setup.now board.now) }
    ensures lines { IfOk result (λ _. options.now.is_json ≡ false → (memory : ShownMemory)
        × IsShownOf board.now.machine.memory setup.now.parts options.now.machine.shows.items memory
        × Wrote (O.device out.old) (O.device out.new) (shown_text board.now.machine memory)) }
    ensures object { IfOk result (λ _. options.now.is_json ≡ true → Wrote (O.device out.old) (O.device out.new)
        (board_object board.now setup.now options.now)) }
{
    let texts = options.machine.shows.as_slice();
    if options.is_json {
        put_threads(alloc, board.machine(), &setup.parts, texts, out)
    } else {
        tell(board, setup, texts, out)
    }
}

// Prints the state and what is asked for of memory.
fn tell<O: Out>(board: &Board, setup: &Setup, sums: &[&str], out: &mut O) -> Result<(), Refusal>
    ensures refused { IfErr result (IsNotTold setup.now board.now) }
    ensures told { IfOk result
        (λ _. (memory : ShownMemory) × IsShownOf board.now.machine.memory setup.now.parts sums.now memory
        × Wrote (O.device out.old) (O.device out.new) (shown_text board.now.machine memory)) }
{
    let machine = board.machine();
    let memory = shown_memory(machine.view(), &setup.parts, sums)?;
    show(machine, memory, out)?;
    Ok(())
}
