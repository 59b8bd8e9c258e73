//! `elide hunt`.
//!
//! Promised: what is printed, where the device tells its bytes, and whether a run failed, is what a search came to over
//! the runs that `--runs` says, by a plan of the seed, the method and the events that the options say, of a machine of
//! the options and of FILE's program, against the checks of the options, and with the limit on steps that `--limit`
//! says (`specs/Printed.antt`): that all of these runs were made, one for each number, and none fails, with how many
//! ended and how many reached the limit; or the number of the first that failed, behind runs that do not, the option of
//! the check that it violates, how long its schedule was and is, the loop that it comes to for ever, where one is told,
//! its stores that were pending when their core loaded from memory, of the steps that decide, as they are told, and the
//! command that replays a schedule which violates that check, or with `--json` the object of the same
//! (`specs/Object.antt`); and that the file that the schedule is recorded in, where its content is told, is left with
//! just the steps of it that decide, which are all of them where it did not reach the limit. Each run is the one of its
//! number: its cores and its events are drawn by the method that the number gives, from the generators of the seed and
//! the number (`tm_pick`), but for which core of those by priorities steps. A refusal is for the reason that it names
//! (`specs/Refused.antt`): an option that is misread, the program, its machine or what is checked that is not had, a
//! search that is not made, or what it came to that is not written; where the page of a run that failed is asked for,
//! what refuses it is its writer's to say. Stands on `elide_checks` for what is asked, and on `tm_hunt`.
#![tactic(auto)]

mod again;
mod block;
mod command;
mod cycle;
mod fault;
mod late;
mod object;
mod replay;
mod report;
mod searching;
mod sending;

pub use command::{Answer, hunt};
