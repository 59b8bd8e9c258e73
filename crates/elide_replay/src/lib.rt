//! `elide replay`.
//!
//! Promised: [`agreement_of`] tells exactly where a machine and a serial run ended alike, and [`replay`] comes to no
//! other end. What it prints, where the device tells its bytes, is the state and what is asked for of memory, of a
//! board of the options and of FILE's program that made the schedule's steps, and that both runs agree; and the file
//! that the schedule is recorded in, where its content is told, is left with the one that the outcomes of these steps
//! tell (`specs/Printed.antt`). With `--json` that is one object in place of the lines. A replay is refused for the
//! reason that it names alone (`specs/Refused.antt`): its board, which has the room and the cores, makes each step that
//! is due. The texts of reasons are compared by `doc_tests`. Stands on `elide_setup` and on `tm_hist`, whose histories
//! replay.
#![tactic(auto)]

mod agreement;
mod once_more;

pub use agreement::{Agreement, agreement_of};
pub use once_more::replay;
