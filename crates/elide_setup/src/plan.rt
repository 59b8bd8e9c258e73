//! Where a command's schedule comes from: [`Plan`] is what the options say, [`Course`] what is walked.
//!
//! [`Plan::read`] opens no file, so that a misused option is told before FILE is read. It tests whether exactly one way
//! is taken; beside a list then `--limit`, `--events`, `--seed`, and else `--random`, `--events`, `--seed`, `--limit`.
//! [`Plan::course`] reads the schedule's file. Whether there is a core for each pick is not asked here, but before a
//! walk or by its steps; the picks of a draw are made one by one in the walk, by what [`Drawn::picker`] gives.

ghost use Rattle.std.specs.Prelude.{◌≡◌, ℕ, Bool, IfErr, IfOk, IfSome, List, MatchResult, None, Ok, OnOk, Option, Some};
ghost use Rattle.std.specs.Prelude.{codes};
ghost use Rattle.std.specs.Prelude.{◌||◌, is_some, true};
ghost use Rattle.std.specs.Option.{option_copied};
ghost use Rattle.elide_args.specs.declared.subcommand.ScheduleOptions.{ScheduleOptions};
ghost use Rattle.elide_program.specs.Files.{Gives, most_bytes};
ghost use Rattle.elide_program.specs.Settings.{word32};
ghost use Rattle.tm_model.specs.declared.outcome.Outcome.{Outcome};
ghost use Rattle.tm_model.specs.declared.outcome.Pick.{Pick};
ghost use Rattle.tm_pick.specs.Drawn.{AreDrawn};
ghost use Rattle.tm_schedule.specs.Schedule.{schedule_of, steps_of};
ghost use Rattle.elide_setup.specs.Drawing.{IsAskedDraw, IsCourseDraw, IsDrawn, IsEventSeed, IsSeed, SaysNoDraw};
ghost use Rattle.elide_setup.specs.Drawing.{events_asked, has_own_drains, limit_said, may_tell, names_drains};
ghost use Rattle.elide_setup.specs.Events.{events_said};
ghost use Rattle.elide_setup.specs.Misuse.{IsMisuse};
ghost use Rattle.elide_setup.specs.Refused.{HasNoCourse, HasNoSchedule, IsMisplanned, is_no_way, is_one_way, plan_path};
ghost use Rattle.elide_setup.specs.Rounds.{IsAskedOut, IsOut, IsPlannedOut};
ghost use Rattle.elide_setup.specs.Schedules.{AreAsked, AreOf, ArePlanned, are_listed, form_asked, form_of, plan_form};

use crate::events::events_of;
use crate::fault::{Fault, Refusal};
use elide_args::ScheduleOptions;
use elide_program::{MOST_BYTES, Paths, ProgramFault, ReadFault, number_of};
use std::alloc::Global;
use tm_model::Pick;
use tm_pick::{Events, Picker};
use tm_schedule::{ScheduleFault, read_schedule, read_steps};

/// The most steps of a schedule that is drawn, where `--limit` is not given.
const MOST_STEPS: u32 = 1_000_000;

/// A schedule of core steps: a list that was given, a file's, or one that is drawn.
#[derive(Drop)]
pub enum Plan<'a> {
    /// `--steps`.
    Steps(Vec<Pick>),
    /// `--schedule`, with the path.
    File(&'a str),
    /// `--in-turn` or `--random`.
    Drawn(Drawn),
}

/// A schedule of core steps that was read, or is drawn.
#[derive(Drop)]
pub enum Course {
    /// The steps, each the number of a core and the event that it comes under, or none.
    Listed(Vec<Pick>),
    /// Steps that are drawn one by one.
    Drawn(Drawn),
}

impl<'a> Plan<'a> {
    /// Reads `--steps`, `--schedule`, `--in-turn` or `--random`, of which exactly one is given, and with the last two
    /// `--events`, `--seed` and `--limit`. `drains` says whether stores may be pending on the machine.
    pub fn read(
        alloc: Global,
        options: &ScheduleOptions<'a>,
        drains: bool,
    ) -> Result<Plan<'a>, Refusal>
        ensures steps { IfOk result (λ plan. (content : List ℕ → Option (List ℕ)) (picks : List Pick) →
            ArePlanned content plan picks → AreAsked drains content options.now picks) }
        ensures draw { IfOk result (IsAskedDraw drains options.now) }
        ensures listed { IfOk result (λ plan. plan_form plan ≡ form_asked drains options.now) }
        ensures path { IfOk result (λ plan. IfSome (plan_path plan) (λ path. options.now.path ≡ Some path)) }
        ensures out { IfOk result (λ plan. (cores : ℕ) (steps : List (Pick × Outcome)) → IsPlannedOut plan cores steps →
            IsAskedOut options.now cores steps) }
        ensures none { IfErr result (IsMisplanned options.now) }
    {
        check_way(options)?;
        match (options.steps, options.path) {
            (Some(list), _) => {
                check_listed(options)?;
                Ok(Plan::Steps(steps_said(alloc, list)?))
            }
            (None, Some(path)) => {
                check_listed(options)?;
                Ok(Plan::File(path))
            }
            (None, None) => Ok(Plan::Drawn(Drawn::read(options, drains)?)),
        }
    }

    /// The steps.
    pub fn course<P: Paths>(self, alloc: Global, paths: &mut P) -> Result<Course, Refusal>
        ensures steps { IfOk result (λ course. (picks : List Pick) → AreOf course picks →
            ArePlanned (P.content paths.old) self.entry picks) }
        ensures draw { (drains : Bool) (options : ScheduleOptions) → IsAskedDraw drains options self.entry →
            IfOk result (IsCourseDraw drains options) }
        ensures listed { IfOk result (λ course. form_of course ≡ plan_form self.entry) }
        ensures out { IfOk result (λ course. (cores : ℕ) (steps : List (Pick × Outcome)) → IsOut course cores steps →
            IsPlannedOut self.entry cores steps) }
        ensures none { IfErr result (HasNoCourse (P.content paths.old) self.entry) }
    {
        match self {
            Plan::Steps(steps) => Ok(Course::Listed(steps)),
            Plan::Drawn(drawn) => Ok(Course::Drawn(drawn)),
            Plan::File(path) => {
                let text = text_of(path, paths)?;
                Ok(Course::Listed(steps_of(alloc, text.as_slice())?))
            }
        }
    }
}

// Refuses where none of the ways to say a schedule is taken, or more than one.
fn check_way(options: &ScheduleOptions<'_>) -> Result<(), Refusal>
    ensures one { OnOk result (is_one_way options.now ≡ true) }
    ensures none { IfErr result (IsMisplanned options.now) }
{
    if is_one_way(options) {
        return Ok(());
    }
    if is_no_way(options) && options.events.is_some() {
        return Err(Refusal::Usage("--events"));
    }
    Err(Refusal::Usage("--steps"))
}

// Whether exactly one of the ways to say a schedule is taken.
fn is_one_way(options: &ScheduleOptions<'_>) -> bool
    ensures { result ≡ is_one_way options.now }
{
    if options.steps.is_some() {
        !(options.path.is_some() || (options.in_turn || options.random.is_some()))
    } else if options.path.is_some() {
        !(options.in_turn || options.random.is_some())
    } else if options.in_turn {
        !options.random.is_some()
    } else {
        options.random.is_some()
    }
}

// Whether none of them is.
fn is_no_way(options: &ScheduleOptions<'_>) -> bool
    ensures { result ≡ is_no_way options.now }
{
    !(options.steps.is_some()
        || (options.path.is_some() || (options.in_turn || options.random.is_some())))
}

// Refuses what is said of a schedule that is drawn, beside one that is listed.
fn check_listed(options: &ScheduleOptions<'_>) -> Result<(), Refusal>
    requires { are_listed options.now ≡ true }
    ensures none { OnOk result (SaysNoDraw options.now) }
    ensures said { IfErr result (IsMisplanned options.now) }
{
    if options.limit.is_some() {
        return Err(Refusal::Usage("--limit"));
    }
    if options.events.is_some() {
        return Err(Refusal::Usage("--events"));
    }
    if options.seed.is_some() {
        return Err(Refusal::Usage("--seed"));
    }
    Ok(())
}

// The steps of a list.
fn steps_said(alloc: Global, list: &str) -> Result<Vec<Pick>, Refusal>
    ensures steps { IfOk result (λ picks. steps_of list.now ≡ Ok picks.items) }
    ensures none { (options : ScheduleOptions) → option_copied options.steps ≡ Some list.now
        → IfErr result (IsMisplanned options) }
{
    match read_steps(alloc, list.as_bytes()) {
        Ok(steps) => Ok(steps),
        Err(ScheduleFault::BadSchedule(_)) => Err(Refusal::Usage("--steps")),
        Err(fault) => Err(Refusal::Fault(Fault::Schedule(fault))),
    }
}

/// A schedule that is drawn, whose steps stand in no list.
#[derive(Clone, Copy, PartialEq, Eq)]
pub struct Drawn {
    /// The seed of a schedule by chance; round by round, where there is none.
    pub seed: Option<u32>,
    /// Which steps come under an event.
    pub events: Events,
    /// What the events are drawn from: the seed of a schedule by chance, and else `--seed`.
    pub event_seed: u32,
    /// The most steps, 1 or more.
    pub most: u32,
    /// Whether stores may be pending, so that a step that waits is a drain, and drains come besides.
    pub drains: bool,
}

impl Drawn {
    // Reads `--random`, `--events`, `--seed` and `--limit`.
    fn read(options: &ScheduleOptions<'_>, drains: bool) -> Result<Drawn, Refusal>
        ensures drawn { IfOk result (IsDrawn drains options.now) }
        ensures form { IfOk result (λ drawn. may_tell drawn ≡ (is_some options.now.events || drains)) }
        ensures none { IfErr result (IsMisplanned options.now) }
    {
        let seed = seed_of(options.random)?;
        let events = events_said(options.events)?;
        let event_seed = event_seed_of(options, seed)?;
        let most = limit_of(options.limit)?;
        Ok(Drawn {
            seed,
            events,
            event_seed,
            most,
            drains,
        })
    }

    /// Whether some step may tell of an event: it may come under one, or be a drain.
    pub fn may_tell(self) -> bool
        ensures { result ≡ may_tell self }
    {
        match self.events {
            Events::Never => self.drains,
            Events::Rate { .. } | Events::Draw => true,
        }
    }

    /// Whether drains come besides the events that are asked for: where stores may be pending, and these name none.
    pub fn has_own_drains(self) -> bool
        ensures { result ≡ has_own_drains self }
    {
        self.drains && !names_drains(self.events)
    }

    /// What picks the steps: each core, and the event that its step comes under, but for the drains that come besides.
    pub fn picker(self) -> Picker<'static>
        ensures events { AreDrawn self.events result.kinds }
        ensures turn { self.seed ≡ None → result.turn ≡ Some None }
    {
        let picker = match self.seed {
            Some(seed) => Picker::random(seed),
            None => Picker::in_turn(),
        };
        picker.under(self.events.of_run(self.event_seed, 0))
    }
}

// Whether drains are among the events that may be drawn.
fn names_drains(events: Events) -> bool
    ensures { result ≡ names_drains events }
{
    match events {
        Events::Rate { kinds, .. } => kinds.drain,
        Events::Never | Events::Draw => false,
    }
}

// The seed of a schedule by chance, where it is one.
fn seed_of(random: Option<&str>) -> Result<Option<u32>, Refusal>
    ensures seed { IfOk result (IsSeed (option_copied random.entry)) }
    ensures none { IfErr result
        (λ why. (text : List ℕ) × (option_copied random.entry ≡ Some text) × (word32 text ≡ None)
        × IsMisuse (codes "--random") why) }
{
    match random {
        Some(_) => Ok(Some(number_of(random, "--random")?)),
        None => Ok(None),
    }
}

// The events that are asked for: none, where the option is not given.
fn events_said(events: Option<&str>) -> Result<Events, Refusal>
    ensures events { IfOk result (λ said. events_asked (option_copied events.entry) ≡ Some said) }
    ensures none { IfErr result (λ why. (text : List ℕ) × (option_copied events.entry ≡ Some text)
        × (events_said text ≡ None) × IsMisuse (codes "--events") why) }
{
    match events {
        Some(text) => events_of(text),
        None => Ok(Events::Never),
    }
}

// What the events are drawn from. `--seed` says it where events are asked for and the schedule is not drawn by a seed
// of its own.
fn event_seed_of(options: &ScheduleOptions<'_>, random: Option<u32>) -> Result<u32, Refusal>
    ensures seed { IfOk result (IsEventSeed options.now random) }
    ensures none { IsSeed (option_copied options.now.random) random → IfErr result (IsMisplanned options.now) }
{
    match (options.seed, random) {
        (None, random) => Ok(random.unwrap_or(1)),
        (Some(_), None) if options.events.is_some() => Ok(number_of(options.seed, "--seed")?),
        (Some(_), _) => Err(Refusal::Usage("--seed")),
    }
}

/// The most steps that `--limit` says, 1 or more; 1,000,000 where it is not given.
pub fn limit_of(limit: Option<&str>) -> Result<u32, Refusal>
    ensures { MatchResult result (λ most. limit_said (option_copied limit.entry) ≡ Some most)
        (λ why. (limit_said (option_copied limit.entry) ≡ None) × IsMisuse (codes "--limit") why) }
{
    if limit.is_none() {
        return Ok(MOST_STEPS);
    }
    match number_of(limit, "--limit")? {
        0 => Err(Refusal::Usage("--limit")),
        most => Ok(most),
    }
}

// The content of a schedule's file.
fn text_of<P: Paths>(path: &str, paths: &mut P) -> Result<Vec<u8>, Fault>
    ensures none { IfErr result (λ fault. HasNoSchedule (P.content paths.old path.now) (Refusal.Fault fault)) }
    ensures given { IfOk result (λ text. IfSome (P.content paths.old path.now) (λ content. text.items ≡ content)) }
    ensures whole { IfOk result (λ text. Gives (P.content paths.old path.now) most_bytes text.items) }
{
    match paths.read(path, MOST_BYTES) {
        Ok(text) => Ok(text),
        Err(ReadFault::NoMemory) => Err(Fault::Schedule(ScheduleFault::NoMemory)),
        Err(fault) => Err(Fault::Program(ProgramFault::from(fault))),
    }
}

// The steps of a schedule text.
fn steps_of(alloc: Global, text: &[u8]) -> Result<Vec<Pick>, Refusal>
    ensures steps { IfOk result (λ picks. schedule_of text.now ≡ Ok picks.items) }
    ensures none { (content : Option (List ℕ)) → Gives content most_bytes text.now
        → IfErr result (HasNoSchedule content) }
{
    let steps = read_schedule(alloc, text)?;
    Ok(steps)
}
