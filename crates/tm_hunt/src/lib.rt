//! The search for a schedule that breaks a program.
//!
//! A [`Trial`] is a program with checks (`tm_check`) on the end of its runs. [`first_failing`] makes the runs of a plan
//! ([`tm_pick`]) by their numbers, under the plan's events, until one violates a check, and [`shorten`] finds a shorter
//! schedule that violates the same check; of one that reached the limit on steps its first steps that decide. Promised:
//! a schedule that is answered, run from the program's opening state, violates the check that it is answered with, and
//! what decides of it is its beginning. The run of each number below it was made: each of its steps is the next one of
//! what picks the steps of that number's run, of a core that has not stopped, and under its event, up to its end or to
//! the limit on steps, and it violates none; so many of them ended, and so many reached the limit. All of them come
//! under events of the plan's kinds alone, under none where it has none. That behind the steps that decide each core
//! steps in turn is tested alone. The words for it stand in `specs/Runs.antt` and `specs/Attempts.antt`, over the
//! boards of `tm_hist`, whose machine is the run of their history.
#![tactic(auto)]

mod alike;
mod attempt;
mod chase;
mod cost;
mod cuts;
mod cycle;
mod delays;
mod early;
mod failure;
mod one_run;
mod pending;
mod plain_stores;
mod rounds;
mod searching;
mod shortening;
mod source;
mod trial;
mod walker;

pub use attempt::{HuntFault, usual_length};
pub use cost::{events, switches};
pub use cycle::{Cycle, find_cycle};
pub use delays::{Delayed, find_delays};
pub use failure::Failure;
pub use plain_stores::finds_pending;
pub use searching::{Found, Search, first_failing};
pub use shortening::shorten;
pub use source::{PlannedRuns, RunSource, StepSource};
pub use trial::Trial;
