//! Every outcome of a small program: all schedules, each state once.
//!
//! A [`Trial`] is a program, and what is shown of it and checked where each core has stopped. [`outcomes`] searches
//! the states that its schedules lead to, breadth first, and goes on from each but once. Promised: each outcome that
//! is told is that of the schedule beside it, run from the program's opening state, and none is told twice; and where
//! the search is not cut at its limit on states, no schedule of any length has another. It also tells a schedule
//! behind which none leads on to an end, one to each stop that is looked for, and one to an end that violates each
//! check; where it is not cut and tells none, there is none. Of states that can end but need not, it tells a schedule
//! to one, and steps of all cores that go on, which lead back there; that there is none where it tells none is not
//! promised. No step of a schedule that is told comes under an event that need not come and aborts nothing. The states
//! that it counts are those of a list of schedules, no two of which lead to what is shown alike; where it is not cut,
//! the list has each state, and those without a way to an end are counted among them. How many states show an outcome
//! or need not end is compared by `doc_tests`. The words for it stand in `specs/Schedules.antt`, `specs/Outcomes.antt`
//! and `specs/Verdicts.antt`, over the machine's definitions in `tm_model` alone.
//!
//! Where stores may be pending, a drain is followed of each core of which one is, if the trial has it among its events;
//! a step that waits is one as well. No cycle is told then, as a store that stays pending for ever is no fault of the
//! program. Whether a step waits for room is told, as where more stores may be pending other outcomes may follow; where
//! the search is not cut and tells none, none does, whatever the schedule.
//!
//! Two states count as one where memory and what is shown of each core are the same: the machine's steps are a
//! function of these. Behind each step that is followed, the steps of all cores are made at once that no other core
//! sees and none changes (`specs/Unseen.antt`): whatever comes between them, the same states follow, so no schedule
//! is lost that way. A state is kept as the last steps of a schedule that leads there. Three machines are kept, which
//! come to a state by a run of its schedule, from before the first step on, or by a copy of one that stands there. A
//! digest says which states may be the same: they are compared before one is dropped. States that are the same have
//! the same digest (`specs/Digests.antt`), so that none is kept twice.
#![tactic(auto)]

mod bench;
mod components;
mod cycle;
mod digest;
mod fault;
mod findings;
mod graph;
mod laps;
mod links;
mod marks;
mod nodes;
mod place;
mod replay;
mod rest;
mod room;
mod searching;
mod stops;
mod stuck;
mod table;
mod task;
mod trial;
mod verdict;
mod violations;
mod watching;
mod written;

pub use cycle::Cycle;
pub use fault::SearchFault;
pub use searching::{Search, outcomes, outcomes_watched};
pub use stops::ReachedStop;
pub use stuck::Stuck;
pub use table::FoundOutcome;
pub use trial::{Events, Item, Trial};
pub use violations::Violation;
pub use watching::{Unwatched, Watching};
