//! The commands of `elide`, over files and devices that are handed in.
//!
//! [`command`] promises the exit status, 0 to 3. That a refusal is told with its number, its line and its status is
//! proved where it is told; what else is written is compared by `doc_tests`. `elide_args` turns the words into a plain
//! subcommand, and each command is in a crate of its own: `elide_asm` (`asm` and `dis`), `elide_run`, `elide_threads`,
//! `elide_replay`, `elide_stats`, `elide_draw`, `elide_page`, `elide_hunt`, `elide_outcomes`, `elide_session` (`debug`
//! and `gdb`) and `elide_explain`. This one chooses among them and tells how they ended, in the colours of
//! `elide_color`; `elide_advice` tells a person at a terminal what is meant.
#![tactic(auto)]

mod answer;
mod dispatch;
mod look;
mod obeying;
mod streams;
mod telling;

pub use dispatch::{carry_out, command, end_early, misused, refuse};
pub use streams::Streams;
