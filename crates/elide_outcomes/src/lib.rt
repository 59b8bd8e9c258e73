//! `elide outcomes`.
//!
//! Promised: what is printed, where the device tells its bytes, is the lines of the outcomes that a search over all
//! schedules of FILE's program found, each once, in the order of their values, below them those of the stops that were
//! looked for, of states without a way to an end and of a cycle that can be made for ever, how many outcomes and states
//! there are, and whether a step waited for room among the stores that are pending, or with `--json` the object of the
//! same (`specs/Object.antt`); the machine, what is shown of it, what its steps come under, the stops and the limit are
//! those of the options, and the answer says whether the search ended at its limit or found what is wrong
//! (`specs/Printed.antt`, `specs/Items.antt`, `specs/Under.antt`, `specs/Stops.antt`, `specs/Lines.antt`,
//! `specs/Verdict.antt`). That what is told is so of the schedules beside it,
//! and that nothing else is where the search is not cut, is proved of `tm_outcomes`; how many states show an outcome,
//! have no way to an end or lie on such cycles, and that a schedule has the fewest steps that are followed, is compared
//! by `doc_tests`. Stands on `elide_setup`, `elide_checks` and `tm_outcomes`.
#![tactic(auto)]

mod command;
mod found;
mod items;
mod names;
mod naming;
mod object;
mod paged;
mod report;
mod search_object;
mod sending;
mod shown;
mod stops;
mod under;
mod verdict;
mod violated;
mod watched;

pub use command::outcomes;
pub use verdict::Answer;
