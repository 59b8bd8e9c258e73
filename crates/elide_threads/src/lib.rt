//! `elide threads`.
//!
//! Promised: what is printed, where the device tells its bytes and no counts are asked for, is the state and what is
//! asked for of memory, of a board of the options and of FILE's program that workers came back with, each with the
//! budget of the options and no abort from outside of the program but by the events of `--events`
//! (`specs/Printed.antt`), as lines or as one object; that their history is a run of the machine is proved of
//! `tm_work`; and that the file of `--record`, where its content is told, is left with the schedule of this history.
//! What reads `--burst`, `--events` and `--seed` answers what they say, and refuses them only where they say nothing;
//! the command is refused for the reason that it names alone (`specs/Refused.antt`).
//! The texts of reasons and counts are compared by `doc_tests`. Which pending stores drain when is `tm_work`'s. Stands
//! on `elide_setup` and `tm_work`.
#![tactic(auto)]

mod record;
mod watch;
mod workers;

pub use workers::threads;
