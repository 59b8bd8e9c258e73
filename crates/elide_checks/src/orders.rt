//! What is asked of a search of `hunt`: which runs it makes, how they are drawn, how long they are, and on how many
//! threads.
//!
//! [`Orders::read`] goes by `--runs`, `--seed`, `--method`, `--events`, `--limit`, `--jobs`, and tells the first that
//! is misread. It opens no file, and asks the host for its processors only where no number of threads is said. What the
//! runs are checked for is `demands`.

ghost use Rattle.std.specs.Prelude.{◌≡◌, ◌≢◌, ◌≤◌, IfErr, IfOk, MatchOption, None, Some, codes};
ghost use Rattle.std.specs.Option.{option_copied};
ghost use Rattle.elide_program.specs.Settings.{number_or, number_said};
ghost use Rattle.elide_setup.specs.Jobs.{AreJobs};
ghost use Rattle.elide_setup.specs.Misuse.{IsMisuse};
ghost use Rattle.elide_checks.specs.Refused.{AreNoOrders};
ghost use Rattle.elide_checks.specs.Runs.{AreNoRuns, AreRuns, IsNoMethod, events_asked, method_word};
ghost use Rattle.tm_pick.specs.declared.method.Method.{Method as MethodOf};

use crate::cut::cut;
use elide_args::HuntOptions;
use elide_program::number_of;
use elide_setup::{Refusal, jobs_of, limit_of};
use std::thread::Threads;
use tm_pick::{Events, Method};

/// What is asked of a search.
#[derive(Clone, Copy)]
pub struct Orders {
    /// The seed.
    pub seed: u32,
    /// How the core of each step is drawn.
    pub method: Method,
    /// Which events the steps of a run come under.
    pub events: Events,
    /// The most steps of a run.
    pub most: u32,
    /// The number of the first run.
    pub first: u32,
    /// The number behind that of the last run.
    pub end: u32,
    /// How many threads make runs, 1 or more.
    pub jobs: usize,
}

impl Orders {
    /// Reads the options in the order in which their misuse is told.
    pub fn read<R: Threads>(rt: &R, options: &HuntOptions<'_>) -> Result<Orders, Refusal>
        ensures runs { IfOk result (λ orders. AreRuns (option_copied options.now.runs) orders.first orders.end) }
        ensures events { IfOk result (λ orders. events_asked (option_copied options.now.events) ≡ Some orders.events) }
        ensures seed { IfOk result (λ orders. number_said (option_copied options.now.seed) ≡ Some orders.seed) }
        ensures method { IfOk result (λ orders. option_copied options.now.method ≡ Some (method_word orders.method)) }
        ensures most { IfOk result (λ orders. number_or 1000000 (option_copied options.now.limit) ≡ Some orders.most) }
        ensures some { IfOk result (λ orders. 1 ≤ orders.most) }
        ensures jobs { IfOk result (λ orders. AreJobs (option_copied options.now.jobs) orders.jobs) }
        ensures err { IfErr result (AreNoOrders options.now) }
    {
        let (first, end) = runs_of(options.runs)?;
        let seed = number_of(options.seed, "--seed")?;
        let method = method_of(options.method)?;
        let events = events_of(options.events)?;
        let most = limit_of(options.limit)?;
        let jobs = jobs_of(rt, options.jobs)?;
        Ok(Orders {
            seed,
            method,
            events,
            most,
            first,
            end,
            jobs,
        })
    }
}

// A count of runs, or the numbers from the first one up to the end.
fn runs_of(text: Option<&str>) -> Result<(u32, u32), Refusal>
    ensures ok { IfOk result (λ runs. AreRuns (option_copied text.entry) runs.0 runs.1) }
    ensures err { IfErr result (λ why. AreNoRuns (option_copied text.entry) × IsMisuse (codes "--runs") why) }
{
    let Some(text) = text else {
        return Err(Refusal::Usage("--runs"));
    };
    match cut(text, "..") {
        None => Ok((0, number_of(Some(text), "--runs")?)),
        Some((first, end)) => {
            let first = number_of(Some(first), "--runs")?;
            let end = number_of(Some(end), "--runs")?;
            if first > end {
                return Err(Refusal::Usage("--runs"));
            }
            Ok((first, end))
        }
    }
}

fn method_of(text: Option<&str>) -> Result<Method, Refusal>
    ensures ok { IfOk result (λ method. option_copied text.entry ≡ Some (method_word method)) }
    ensures err { IfErr result (λ why. IsNoMethod (option_copied text.entry) × IsMisuse (codes "--method") why) }
{
    let Some(word) = text else {
        return Err(Refusal::Usage("--method"));
    };
    match method_named(word) {
        Some(method) => Ok(method),
        None => Err(Refusal::Usage("--method")),
    }
}

// The method of a word.
fn method_named(word: &str) -> Option<Method>
    ensures { MatchOption result ((method : MethodOf) → word.now ≢ method_word method)
        (λ method. word.now ≡ method_word method) }
{
    if word == "mix" {
        return Some(Method::Mix);
    }
    if word == "uniform" {
        return Some(Method::Uniform);
    }
    if word == "bursts" {
        return Some(Method::Bursts);
    }
    if word == "pct" {
        return Some(Method::Priorities);
    }
    if word == "seen" {
        return Some(Method::Seen);
    }
    None
}

// No events, those that each run draws, or those of a rate.
fn events_of(text: Option<&str>) -> Result<Events, Refusal>
    ensures ok { IfOk result (λ events. events_asked (option_copied text.entry) ≡ Some events) }
    ensures err { IfErr result (λ why. (events_asked (option_copied text.entry) ≡ None)
        × IsMisuse (codes "--events") why) }
{
    let Some(text) = text else {
        return Ok(Events::Never);
    };
    if text == "draw" {
        Ok(Events::Draw)
    } else {
        elide_setup::events_of(text)
    }
}
