//! `elide outcomes`: [`outcomes`] is the one call.
//!
//! Faults come in this order: `--stop`, the machine's options, `--events`, `--limit`, `--page`, FILE, the program,
//! `--show`, `--check`, `--forbid`, its loading, what is looked at, the search. Then the outcomes are sorted and
//! printed, and the page comes last: that it is not written is told behind the outcomes. States are followed by
//! `tm_outcomes`, on one thread.

ghost use Rattle.std.specs.Prelude.{◌≡◌, ◌≤◌, IfErr, IfOk, MatchResult, OnOk, codes, nat_lt};
ghost use Rattle.std.specs.Option.{option_copied};
ghost use Rattle.elide_program.specs.ProgramFile.{IsFile};
ghost use Rattle.elide_program.specs.declared.file.ProgramFile.{ProgramFile};
ghost use Rattle.elide_setup.specs.Misuse.{IsMisuse};
ghost use Rattle.elide_setup.specs.Refused.{IsUntold};
ghost use Rattle.elide_setup.specs.Setup.{IsSetup};
ghost use Rattle.elide_setup.specs.declared.machine.Setup.{Setup};
ghost use Rattle.tm_outcomes.specs.Outcomes.{AreThere, IsSearch};
ghost use Rattle.tm_outcomes.specs.declared.trial.Trial.{Trial};
ghost use Rattle.tm_outcomes.specs.Verdicts.{IsVerdict};
ghost use Rattle.elide_args.specs.Asked.{texts_of};
ghost use Rattle.elide_checks.specs.Runs.{IsNoLimit};
ghost use Rattle.elide_outcomes.specs.Printed.{AreWritten, IsFound, IsLimit, IsMade, IsPrinted, IsSorted, IsTrialOf};
ghost use Rattle.elide_outcomes.specs.Printed.{IsWritten, asks_more};
ghost use Rattle.elide_outcomes.specs.Refused.{IsNotFound, IsNotFoundIn, IsNotSearched, IsNotSearchedBy, IsRefused};
ghost use Rattle.elide_outcomes.specs.Stops.{AreStops};
ghost use Rattle.elide_outcomes.specs.Under.{AreUnder};

use crate::found::Found;
use crate::items::items_of;
use crate::names::labels_of;
use crate::object::tell_object;
use crate::paged::{PageAsked, Searched};
use crate::report::{sort, tell};
use crate::shown::words_of;
use crate::stops::stops_of;
use crate::under::Under;
use crate::verdict::Answer;
use crate::watched::Watched;
use elide_args::OutcomesOptions;
use elide_checks::EndChecks;
use elide_device::{Gathered, Progress};
use elide_program::{Paths, ProgramFile, Settings, number_of, read_file};
use elide_setup::{Fault, Paged, Pages, Refusal, Setup};
use std::alloc::Global;
use text_out::Out;
use tm_core::{MachineFault, RunFault};
use tm_outcomes::{Events, Item, Search, SearchFault, Trial, outcomes_watched};
use tm_rule::Stop;

/// The most states by default: at some 50 bytes a state and 9 a link, of two cores some 70 million bytes.
const USUAL_LIMIT: u32 = 1_000_000;

/// What is asked of a search, beside its machine.
#[derive(Clone, Copy)]
pub struct Asked<'a> {
    /// For what is found.
    pub alloc: Global,
    /// What is shown, checked and looked for.
    pub options: &'a OutcomesOptions<'a>,
    /// What the steps come under.
    pub under: Under,
    /// `--stop`: the reasons to stop that are looked for.
    pub stops: &'a [Stop],
    /// The most states.
    pub most: u32,
}

// The options, of which the stops that are looked for are read.
#[derive(Clone, Copy)]
struct Request<'a> {
    alloc: Global,
    options: &'a OutcomesOptions<'a>,
    stops: &'a [Stop],
}

/// Searches all schedules of a program, prints each outcome in the order of its values, and writes the page of one
/// where that is asked for. While it searches, `progress` is told how many states were found. Answers what the search
/// came to and what became of the page, and gives the device back. Where there is no such outcome, or its page cannot
/// be written, that is the refusal, and the outcomes are printed before.
pub fn outcomes<P: Paths, O: Out + Drop, G: Progress, W: Pages>(
    alloc: Global,
    options: &OutcomesOptions<'_>,
    paths: &mut P,
    pages: &W,
    out: O,
    progress: &mut G,
) -> Result<(Answer, Paged, O), Refusal>
    ensures { MatchResult result
        (λ r. IsPrinted (P.content paths.old) options.now r.0 (O.device out).contents (O.device r.2).contents)
        (IsRefused (P.content paths.old) (P.are_one paths.old) options.now) }
{
    let mut page = Gathered::new(out);
    let (answer, paged) = outcomes_of_options(alloc, options, paths, pages, &mut page, progress)?;
    let out = page.finish()?;
    // The page's refusal only now, when the outcomes are handed on.
    Ok((answer, paged?, out))
}

// What [`outcomes`] does, on a device that is lent. What became of the page is told apart, so that the outcomes are
// printed before.
fn outcomes_of_options<P: Paths, O: Out, G: Progress, W: Pages>(
    alloc: Global,
    options: &OutcomesOptions<'_>,
    paths: &mut P,
    pages: &W,
    out: &mut O,
    progress: &mut G,
) -> Result<(Answer, Result<Paged, Refusal>), Refusal>
    ensures ok { IfOk result (λ r. IsPrinted (P.content paths.old) options.now r.0
        (O.device out.old).contents (O.device out.new).contents) }
    ensures page { IfOk result (λ r. IfErr r.1
        (IsRefused (P.content paths.old) (P.are_one paths.old) options.now)) }
    ensures err { IfErr result
        (IsRefused (P.content paths.old) (P.are_one paths.old) options.now) }
{
    let stops = stops_of(alloc, options.stops.as_slice())?;
    let request = Request {
        alloc,
        options,
        stops: stops.as_slice(),
    };
    let answer = outcomes_with_stops(request, paths, pages, out, progress);
    drop(stops);
    answer
}

// What [`outcomes_of_options`] does once the stops that are looked for are read.
fn outcomes_with_stops<P: Paths, O: Out, G: Progress, W: Pages>(
    request: Request<'_>,
    paths: &mut P,
    pages: &W,
    out: &mut O,
    progress: &mut G,
) -> Result<(Answer, Result<Paged, Refusal>), Refusal>
    requires { AreStops request.options.now.stops.items request.stops.now }
    ensures ok { IfOk result (λ r. IsPrinted (P.content paths.old) request.entry.options.now r.0
        (O.device out.old).contents (O.device out.new).contents) }
    ensures page { IfOk result (λ r. IfErr r.1
        (IsRefused (P.content paths.old) (P.are_one paths.old) request.entry.options.now)) }
    ensures err { IfErr result
        (IsRefused (P.content paths.old) (P.are_one paths.old) request.entry.options.now) }
{
    let Request {
        alloc,
        options,
        stops,
    } = request;
    let settings = Settings::read(&options.machine)?;
    let under = Under::read(options.events)?;
    let most = limit_of(options.limit)?;
    let page = PageAsked::read(options, paths)?;
    let asked = Asked {
        alloc,
        options,
        under,
        stops,
        most,
    };
    let text = read_file(options.machine.file, paths)?;
    let made = search_of_text(&asked, &settings, text.as_slice(), progress);
    // Here, where a search that was refused comes by, too.
    progress.end();
    let found = made?;
    write(alloc, options, &found, out)?;
    let answer = Answer::of(options.asks_stuck, &found.search);
    let told = found.search.outcomes.as_slice();
    let searched = Searched {
        machine: &options.machine,
        text: text.as_slice(),
        told,
    };
    let paged = page.write(alloc, searched, pages, paths);
    Ok((answer, paged))
}

// Prints what was found, in the form that is asked for.
fn write<O: Out>(
    alloc: Global,
    options: &OutcomesOptions<'_>,
    found: &Found,
    out: &mut O,
) -> Result<(), Refusal>
    ensures ok { OnOk result (IsWritten options.now found.now (O.device out.old).contents (O.device out.new).contents) }
    ensures err { IfErr result IsUntold }
{
    let words = words_of(alloc, options.show)?;
    write_words(alloc, options, words.as_slice(), found, out)
}

// What [`write`] does, with the words of `--show`.
fn write_words<O: Out>(
    alloc: Global,
    options: &OutcomesOptions<'_>,
    words: &[&str],
    found: &Found,
    out: &mut O,
) -> Result<(), Refusal>
    ensures ok { OnOk result (AreWritten options.now (texts_of words.now) found.now
        (O.device out.old).contents (O.device out.new).contents) }
    ensures err { IfErr result IsUntold }
{
    if options.is_json {
        tell_object(alloc, options, words, &found.search, out)
    } else {
        tell(options, words, found.labels.as_slice(), &found.search, out)?;
        Ok(())
    }
}

// Searches a program's text. What is made in one of these functions is lent to the next, so that each has little to
// drop.
fn search_of_text<G: Progress>(
    asked: &Asked<'_>,
    settings: &Settings<'_>,
    text: &[u8],
    progress: &mut G,
) -> Result<Found, Refusal>
    requires { 1 ≤ asked.now.most }
    ensures { MatchResult result
        (λ found. (file : ProgramFile) × IsFile text.now file × (trial : Trial)
        × (setup : Setup) × IsSetup file settings.now setup
        × IsTrialOf text.now file setup asked.now.options.now asked.now.under asked.now.stops.now trial
        × IsFound file trial asked.now.most found)
        (IsNotFound text.now settings.now asked.now.options.now asked.now.under asked.now.stops.now) }
{
    let file = ProgramFile::read(asked.alloc, text)?;
    let found = search_of_file(asked, settings, text, &file, progress);
    drop(file);
    found
}

// What [`search_of_text`] does once the text is read as a program.
fn search_of_file<G: Progress>(
    asked: &Asked<'_>,
    settings: &Settings<'_>,
    text: &[u8],
    file: &ProgramFile<'_>,
    progress: &mut G,
) -> Result<Found, Refusal>
    requires { 1 ≤ asked.now.most }
    ensures { MatchResult result
        (λ found. (trial : Trial) × (setup : Setup) × IsSetup file.now settings.now setup
        × IsTrialOf text.now file.now setup asked.now.options.now asked.now.under asked.now.stops.now trial
        × IsFound file.now trial asked.now.most found)
        (IsNotFoundIn text.now file.now settings.now asked.now.options.now asked.now.under asked.now.stops.now) }
{
    let alloc = asked.alloc;
    let options = asked.options;
    let items = items_of(alloc, options.show, !asks_more(options), file)?;
    let ends = EndChecks::read(
        alloc,
        options.checks.as_slice(),
        options.forbids.as_slice(),
        text,
        file,
    )?;
    let labels = labels_of(alloc, options.shows_names, text, file)?;
    let setup = Setup::of_file(alloc, settings, file)?;
    let drains = may_drain(&setup);
    let listed = asked.under.listed(alloc, drains)?;
    let events = asked.under.events(drains, listed.as_slice());
    let search = search_of_setup(asked, items.as_slice(), &ends, events, &setup, progress)?;
    Ok(Found { search, labels })
}

// Whether stores may be pending on the machine.
fn may_drain(setup: &Setup) -> bool
    ensures { result ≡ nat_lt 0 setup.now.limits.stores }
{
    setup.limits.stores > 0
}

// Whether something else than what is shown is asked for.
fn asks_more(options: &OutcomesOptions<'_>) -> bool
    ensures { result ≡ asks_more options.now }
{
    options.asks_stuck
        || options.stops.len() > 0
        || options.checks.len() > 0
        || options.forbids.len() > 0
}

// What [`search_of_file`] does once the program is loaded, with what is shown and checked of its machine.
fn search_of_setup<'x, G: Progress>(
    asked: &'x Asked<'x>,
    items: &'x [Item],
    ends: &'x EndChecks,
    events: Events<'x>,
    setup: &'x Setup,
    progress: &mut G,
) -> Result<Search, Refusal>
    requires most { 1 ≤ asked.now.most }
    requires under { AreUnder asked.now.under (nat_lt 0 setup.now.limits.stores) events }
    ensures { MatchResult result
        (λ search. (trial : Trial)
        × IsMade setup.now items.now ends.now.checks.items asked.now.under asked.now.stops.now
        trial × IsSorted trial asked.now.most search)
        (IsNotSearchedBy setup.now items.now ends.now.checks.items asked.now.under asked.now.stops.now) }
{
    let checks = ends.checks(setup.program.mem_size(), setup.program.cores())?;
    let trial = Trial {
        program: &setup.program,
        limits: setup.limits,
        items,
        events,
        stops: asked.stops,
        checks,
    };
    search_in_order(asked.alloc, &trial, asked.most, progress)
}

// Searches, and brings the outcomes into the order of their values.
fn search_in_order<G: Progress>(
    alloc: Global,
    trial: &Trial<'_>,
    most: u32,
    progress: &mut G,
) -> Result<Search, Refusal>
    requires { 1 ≤ most }
    ensures { MatchResult result (IsSorted trial.now most) (IsNotSearched trial.now) }
{
    let mut search = search_trial(alloc, trial, most, progress)?;
    sort(&mut search.outcomes);
    Ok(search)
}

// The most states, 1 or more.
fn limit_of(text: Option<&str>) -> Result<u32, Refusal>
    ensures ok { IfOk result (IsLimit (option_copied text.entry)) }
    ensures err { IfErr result (λ why. IsNoLimit (option_copied text.entry) × IsMisuse (codes "--limit") why) }
{
    let Some(text) = text else {
        return Ok(USUAL_LIMIT);
    };
    match number_of(Some(text), "--limit")? {
        0 => Err(Refusal::Usage("--limit")),
        most => Ok(most),
    }
}

// Searches, where what is to be shown is there.
fn search_trial<G: Progress>(
    alloc: Global,
    trial: &Trial<'_>,
    most: u32,
    progress: &mut G,
) -> Result<Search, Refusal>
    requires { 1 ≤ most }
    ensures there { OnOk result (AreThere trial.now) }
    ensures found { IfOk result (IsSearch trial.now most) }
    ensures verdict { IfOk result (IsVerdict trial.now) }
    ensures none { IfErr result (IsNotSearched trial.now) }
{
    if !trial.has_all() {
        return Err(Refusal::Fault(Fault::OutOfRange));
    }
    let mut watched = Watched { progress, most };
    match outcomes_watched(alloc, trial, most, &mut watched) {
        Ok(search) => Ok(search),
        Err(SearchFault::BadLimits) => {
            Err(Refusal::Fault(Fault::Machine(MachineFault::BadLimits)))
        }
        Err(SearchFault::NoMemory) => Err(Refusal::Fault(Fault::Run(RunFault::NoMemory))),
    }
}
