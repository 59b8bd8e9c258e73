//! `elide hunt`: [`hunt`] is the one call.
//!
//! Faults come in this order: the machine's options, those of the search, `--record`, `--page`, FILE, the program, the
//! checks, its loading, what the checks look at, the runs. A run that failed is shortened, and its loop looked for and
//! its stores that are late; then its page is written, its record, and last the lines or the object. A page that cannot
//! be written is told behind them. Where none failed, a person at a terminal is told of store buffers, if the program's
//! stores may be pending. Runs are drawn by `tm_pick`, made and shortened by `tm_hunt`.

ghost use Rattle.std.specs.Prelude.{◌≡◌, ◌≤◌, ℕ, All, Bool, IfErr, IfOk, IfSome, List, OnOk, Option, Some};
ghost use Rattle.std.specs.Borrow.{Bor};
ghost use Rattle.std.specs.Io.KnownBytes.{Appends};
ghost use Rattle.elide_args.specs.declared.hunt_options.HuntOptions.{HuntOptions};
ghost use Rattle.elide_checks.specs.Checks.{AreChecks};
ghost use Rattle.elide_program.specs.Files.{Gives, most_bytes};
ghost use Rattle.elide_program.specs.ProgramFile.{IsFile};
ghost use Rattle.elide_program.specs.declared.file.ProgramFile.{ProgramFile};
ghost use Rattle.elide_program.specs.Settings.{AreSettings};
ghost use Rattle.elide_setup.specs.Recorded.{IsRecorded};
ghost use Rattle.elide_setup.specs.Refused.{IsNotPaged, IsUnrecorded, IsUntold};
ghost use Rattle.tm_schedule.specs.Schedule.{schedule_text};
ghost use Rattle.elide_setup.specs.Setup.{IsSetup};
ghost use Rattle.elide_setup.specs.declared.machine.Setup.{Setup};
ghost use Rattle.tm_hunt.specs.Attempts.{IsFailure, IsSearch};
ghost use Rattle.tm_hunt.specs.Cycle.{IsCycle};
ghost use Rattle.tm_hunt.specs.Deciding.{cost_told, deciding};
ghost use Rattle.tm_hunt.specs.Kept.{KeepsKinds};
ghost use Rattle.tm_hunt.specs.Sources.{IsPlannedRun};
ghost use Rattle.tm_hunt.specs.declared.searching.Found.{Found};
ghost use Rattle.tm_hunt.specs.declared.trial.Trial.{Trial};
ghost use Rattle.tm_pick.specs.declared.method.Plan.{Plan};
ghost use Rattle.elide_object.specs.Object.{object_text};
ghost use Rattle.elide_hunt.specs.Lates.{IsLate};
ghost use Rattle.elide_hunt.specs.Lines.{search_text};
ghost use Rattle.elide_hunt.specs.Object.{search_value};
ghost use Rattle.elide_hunt.specs.Refused.{IsNoSearch, IsNotHunted, IsRefused};
ghost use Rattle.elide_hunt.specs.Printed.{AreOrders, IsHunted, IsPlanOf, IsPrinted, IsTold, IsTrialOf, answer_of};

use crate::fault::fault_of;
use crate::late::{Late, Source, Told};
use crate::object::tell_object;
use crate::report::{Beside, counts_of, tell_lines};
use crate::searching::search_runs;
use elide_args::HuntOptions;
use elide_checks::{Demands, Orders};
use elide_device::{Gathered, Progress};
use elide_program::{Paths, ProgramFile, Settings, read_file};
use elide_setup::{Paged, Pages, Refusal, Setup, page_path, record, record_path};
use std::alloc::Global;
use std::thread::Threads;
use text_out::Out;
use tm_hunt::{
    Cycle, Failure, Found, Search, Trial, find_cycle, finds_pending, shorten, usual_length,
};
use tm_pick::Plan;

/// What is told of a program whose stores may be delayed, where no run failed without that.
const HINT: &str =
    "stores outside of transactions may be delayed on a processor: try --store-buffer 4";

/// What a search came to.
#[derive(Clone, Copy, PartialEq, Eq)]
pub enum Answer {
    /// No run failed.
    NoneFailed,
    /// A run failed.
    Failed,
}

impl Answer {
    // That of a search.
    fn of(search: &Search) -> Answer
        ensures { result ≡ answer_of search.now.found }
    {
        match &search.found {
            Some(_) => Answer::Failed,
            None => Answer::NoneFailed,
        }
    }
}

/// Makes the runs that the method draws, by their numbers, until one fails, shortens its schedule, writes it and its
/// page where that is asked for, and prints what came about. Answers whether a run failed and what became of its page,
/// and gives the device back. Where the page cannot be written that is the refusal, and what came about is printed
/// before.
pub fn hunt<R: Threads + Sync + AllocGlobal, P: Paths, O: Out + Drop, G: Progress, W: Pages>(
    rt: &R,
    options: &HuntOptions<'_>,
    paths: &mut P,
    pages: &W,
    out: O,
    progress: &mut G,
) -> Result<(Answer, Paged, O), Refusal>
    ensures printed { IfOk result (λ r. IsPrinted (P.content paths.old) (P.content paths.new) options.now r.0
        (O.device out).contents (O.device r.2).contents) }
    ensures refused { IfErr result (IsRefused (P.content paths.old) (P.are_one paths.old) options.now) }
{
    let settings = Settings::read(&options.machine)?;
    let orders = Orders::read(rt, options)?;
    let path = record_path(options.record, options.machine.file, paths)?;
    let page = page_path(options.page, options.machine.file, options.record, paths)?;
    let text = read_file(options.machine.file, paths)?;
    let made = hunt_text(rt, options, &settings, &orders, text.as_slice(), progress);
    // Before a refusal is told, so that no line of progress stays.
    progress.end();
    let (search, beside) = made?;
    // Not refused yet: what came about is recorded and printed first.
    let ended = Ended {
        options,
        text: text.as_slice(),
        search: &search,
    };
    let paged = write_page(rt.alloc(), ended, page, pages, paths);
    drop(text);
    write_record(&search, path, paths)?;
    let (answer, out) = tell(rt.alloc(), options, &search, &beside, out)?;
    Ok((answer, paged?, out))
}

// A search that has ended: what was asked for, the text that it ran, and what it came to.
#[derive(Clone, Copy)]
struct Ended<'a> {
    options: &'a HuntOptions<'a>,
    text: &'a [u8],
    search: &'a Search,
}

// Writes the page of the run that failed, if one did, where there is a path.
fn write_page<P: Paths, W: Pages>(
    alloc: Global,
    ended: Ended<'_>,
    page: Option<&str>,
    pages: &W,
    paths: &mut P,
) -> Result<Paged, Refusal>
    ensures { IfErr result (λ why. (given : Bor (List ℕ)) × (found : Found) × (page.entry ≡ Some given)
        × (ended.entry.search.now.found ≡ Some found)
        × IsNotPaged ended.entry.text.now ended.entry.options.now.machine (deciding found.failure) why) }
{
    match (page, &ended.search.found) {
        (Some(page), Some(found)) => {
            let machine = &ended.options.machine;
            let picks = found.failure.deciding();
            pages.write_page(alloc, machine, ended.text, picks, page, paths)
        }
        _ => Ok(Paged::AsAsked),
    }
}

// Writes what decides of the run that failed, if one did, where there is a path.
fn write_record<P: Paths>(search: &Search, path: Option<&str>, paths: &mut P) -> Result<(), Refusal>
    ensures written { OnOk result (IfSome search.now.found (λ found.
        IsRecorded (P.content paths.new) path.entry (schedule_text (deciding found.failure)))) }
    ensures refused { IfErr result (IsUnrecorded path.entry) }
{
    match &search.found {
        Some(found) => record(path, found.failure.deciding(), paths),
        None => Ok(()),
    }
}

// Prints what a search came to.
fn tell<O: Out + Drop>(
    alloc: Global,
    options: &HuntOptions<'_>,
    search: &Search,
    beside: &Beside,
    out: O,
) -> Result<(Answer, O), Refusal>
    ensures told { IfOk result (λ r. IsTold options.now beside.now search.now r.0
        (O.device out).contents (O.device r.1).contents) }
    ensures refused { IfErr result IsUntold }
{
    if options.is_json {
        let out = put_object(alloc, options, search, beside, out)?;
        Ok((Answer::of(search), out))
    } else {
        let out = put_lines(options, search, beside, out)?;
        Ok((Answer::of(search), out))
    }
}

// Prints its object.
fn put_object<O: Out + Drop>(
    alloc: Global,
    options: &HuntOptions<'_>,
    search: &Search,
    beside: &Beside,
    out: O,
) -> Result<O, Refusal>
    ensures told { IfOk result (λ given. Appends (O.device out).contents (O.device given).contents
        (object_text (search_value options.now beside.now search.now))) }
    ensures refused { IfErr result IsUntold }
{
    let mut page = Gathered::new(out);
    tell_object(alloc, options, search, beside, &mut page)?;
    let out = page.finish()?;
    Ok(out)
}

// Prints its lines.
fn put_lines<O: Out + Drop>(
    options: &HuntOptions<'_>,
    search: &Search,
    beside: &Beside,
    out: O,
) -> Result<O, Refusal>
    ensures told { IfOk result (λ given. Appends (O.device out).contents (O.device given).contents
        (search_text options.now beside.now search.now)) }
    ensures refused { IfErr result IsUntold }
{
    let mut page = Gathered::new(out);
    tell_lines(options, search, beside, &mut page)?;
    let out = page.finish()?;
    Ok(out)
}

// Searches the program of a file, and shortens the schedule that is found; with what is told beside it.
fn hunt_text<R: Threads + Sync + AllocGlobal, G: Progress>(
    rt: &R,
    options: &HuntOptions<'_>,
    settings: &Settings<'_>,
    orders: &Orders,
    text: &[u8],
    progress: &mut G,
) -> Result<(Search, Beside), Refusal>
    ensures hunted { IfOk result
        (λ made. (file : ProgramFile) × (setup : Setup) × (trial : Trial) × IsFile text.now file
        × IsSetup file settings.now setup × IsTrialOf text.now file options.now setup orders.now trial
        × IsHunted trial orders.now made.1 made.0) }
    ensures refused { (content : List ℕ → Option (List ℕ)) (are_one : List ℕ → List ℕ → Option Bool) →
        Gives (content options.now.machine.file.now) most_bytes text.now
        → AreSettings options.now.machine settings.now →
        AreOrders options.now orders.now → IfErr result (IsRefused content are_one options.now) }
{
    let alloc = rt.alloc();
    let file = ProgramFile::read(alloc, text)?;
    let demands = Demands::read(alloc, options, text, &file)?;
    let setup = Setup::of_file(alloc, settings, &file)?;
    let source = Source {
        path: options.machine.file,
        text,
        file: &file,
    };
    let made = hunt_setup(rt, &demands, &setup, orders, source, progress);
    if let Ok((search, _beside)) = &made {
        hint(alloc, options, &setup, orders, search, progress);
    }
    drop(setup);
    drop(demands);
    drop(file);
    made
}

// What [`hunt_text`] does once the program is loaded.
fn hunt_setup<R: Threads + Sync + AllocGlobal, G: Progress>(
    rt: &R,
    demands: &Demands,
    setup: &Setup,
    orders: &Orders,
    source: Source<'_, '_, '_>,
    progress: &mut G,
) -> Result<(Search, Beside), Refusal>
    ensures hunted { (text : List ℕ) (file : ProgramFile) (options : HuntOptions) →
        AreChecks text file options demands.now.checks.items →
        IfOk result (λ made. (trial : Trial) × IsTrialOf text file options setup.now orders.now trial
        × IsHunted trial orders.now made.1 made.0) }
    ensures refused { (text : List ℕ) (file : ProgramFile) (options : HuntOptions) →
        AreChecks text file options demands.now.checks.items →
        IfErr result (IsNoSearch text file options setup.now orders.now) }
{
    let checks = demands.checks(setup.program.mem_size(), setup.program.cores())?;
    let trial = Trial {
        program: &setup.program,
        limits: setup.limits,
        most: orders.most,
        checks,
    };
    hunt_trial(rt, &trial, orders, source, progress)
}

// Tells a person at a terminal that stores may be delayed, where a search that did not ask for that found no failure of
// a program that makes such stores.
fn hint<G: Progress>(
    alloc: Global,
    options: &HuntOptions<'_>,
    setup: &Setup,
    orders: &Orders,
    search: &Search,
    progress: &mut G,
) {
    if search.found.is_some() || options.machine.store_buffer.is_some() {
        return;
    }
    let most = orders.most;
    let trial = Trial {
        program: &setup.program,
        limits: setup.limits,
        most,
        checks: &[],
    };
    if finds_pending(alloc, &trial) {
        progress.hint(HINT);
    }
}

// A search whose schedule is shortened, with how long it was before, the loop that it comes to, and the stores of it
// that are late.
fn hunt_trial<R: Threads + Sync + AllocGlobal, G: Progress>(
    rt: &R,
    trial: &Trial<'_>,
    orders: &Orders,
    source: Source<'_, '_, '_>,
    progress: &mut G,
) -> Result<(Search, Beside), Refusal>
    ensures hunted { IfOk result (λ made. IsHunted trial.now orders.now made.1 made.0) }
    ensures refused { IfErr result (IsNotHunted trial.now) }
{
    let Search { found, ended, cut } = try_runs(rt, trial, orders, progress)?;
    let Some(Found { run, mut failure }) = found else {
        let found = None;
        let beside = Beside {
            before: counts_of(&[]),
            cycle: None,
            lates: Vec::new(rt.alloc()),
        };
        return Ok((Search { found, ended, cut }, beside));
    };
    let before = counts_of(failure.picks.as_slice());
    shorten_failure(rt.alloc(), trial, &mut failure)?;
    let cycle = cycle_of(rt.alloc(), trial, &failure)?;
    let lates = lates_of(rt.alloc(), trial, &failure, source)?;
    let found = Some(Found { run, failure });
    let beside = Beside {
        before,
        cycle,
        lates,
    };
    Ok((Search { found, ended, cut }, beside))
}

// Makes the runs.
fn try_runs<R: Threads + Sync + AllocGlobal, G: Progress>(
    rt: &R,
    trial: &Trial<'_>,
    orders: &Orders,
    progress: &mut G,
) -> Result<Search, Refusal>
    ensures searched { IfOk result (λ search. (plan : Plan) × IsPlanOf orders.now trial.now plan
        × IsSearch trial.now (IsPlannedRun plan) orders.now.first orders.now.end search) }
    ensures refused { IfErr result (IsNotHunted trial.now) }
{
    let length = match usual_length(rt.alloc(), trial) {
        Ok(length) => length,
        Err(fault) => return Err(Refusal::Fault(fault_of(fault))),
    };
    let plan = Plan {
        seed: orders.seed,
        method: orders.method,
        length,
        events: orders.events,
    };
    search_runs(rt, trial, plan, orders, progress)
}

// Shortens a schedule.
fn shorten_failure(alloc: Global, trial: &Trial<'_>, failure: &mut Failure) -> Result<(), Refusal>
    requires { IsFailure trial.now failure.old }
    ensures fails { IsFailure trial.now failure.new }
    ensures same { failure.new.check ≡ failure.old.check }
    ensures simpler { cost_told failure.new ≤ cost_told failure.old }
    ensures kinds { KeepsKinds failure.old.picks.items failure.new.picks.items }
    ensures refused { IfErr result (IsNotHunted trial.now) }
{
    match shorten(alloc, trial, failure) {
        Ok(()) => Ok(()),
        Err(fault) => Err(Refusal::Fault(fault_of(fault))),
    }
}

// Looks for the loop that a run comes to.
fn cycle_of(alloc: Global, trial: &Trial<'_>, failure: &Failure) -> Result<Option<Cycle>, Refusal>
    ensures found { IfOk result (λ found. IfSome found (IsCycle trial.now failure.now)) }
    ensures refused { IfErr result (IsNotHunted trial.now) }
{
    match find_cycle(alloc, trial, failure) {
        Ok(found) => Ok(found),
        Err(fault) => Err(Refusal::Fault(fault_of(fault))),
    }
}

// Looks for the stores of a run that are late past a load.
fn lates_of(
    alloc: Global,
    trial: &Trial<'_>,
    failure: &Failure,
    source: Source<'_, '_, '_>,
) -> Result<Vec<Late>, Refusal>
    ensures late { IfOk result (λ lates. All (IsLate trial.now failure.now) lates.items) }
    ensures refused { IfErr result (IsNotHunted trial.now) }
{
    let told = Told {
        trial: *trial,
        failure,
    };
    match told.lates(alloc, source) {
        Ok(lates) => Ok(lates),
        Err(fault) => Err(Refusal::Fault(fault_of(fault))),
    }
}
