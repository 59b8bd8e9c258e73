//! `elide run`.
//!
//! Promised: what is printed, where the device tells its bytes, is the lines of the outcomes, where they are asked for,
//! and below them the state and what is asked for of memory, of a machine of the options and of FILE's program that was
//! run by the rules along the schedule's steps (`specs/Printed.antt`); where it is expected that all cores stop, below
//! that just the lines of those that have not, and the ending says whether there is one (`specs/Halting.antt`); and
//! that the file that the schedule is recorded in, where its content is told, is left with the schedule of these steps,
//! also where reasons are asked for. The texts of reasons are compared by `doc_tests`. With `--json` one object is
//! printed in place of the lines, of the same machine and the same steps (`specs/Object.antt`). A run is refused for
//! the reason that it names alone (`specs/Refused.antt`); once it goes on, for what is not written or want of memory
//! alone: the machine makes each step that is due. Stands on `elide_setup`, on `elide_why` for the reasons of aborts,
//! and on `elide_json` for the object.
#![tactic(auto)]

mod coded;
mod explained;
mod halting;
mod object;
mod opening;
mod schedule;

pub use halting::Ending;
pub use schedule::run;
