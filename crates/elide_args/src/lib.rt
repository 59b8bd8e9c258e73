//! The command line of `elide`: words to plain subcommands.
//!
//! That each option of a subcommand is the value that `clap` found under its name is proved where they are taken; which
//! words are taken, and each text of help and refusal, are compared by `doc_tests`. Alone in this repository it stands
//! on `clap`, and no type of `clap` leaves it. Stands on `text_out` for the devices that texts go to.
#![tactic(auto)]

mod hunt_options;
mod line;
mod near;
mod options;
mod subcommand;
mod subcommands;
mod words;

pub use hunt_options::HuntOptions;
pub use subcommand::{
    AsmOptions, CommandLine, DisOptions, DrawOptions, ExplainOptions, MachineOptions,
    OutcomesOptions, PageOptions, ReplayOptions, RunOptions, ScheduleOptions, SessionOptions,
    StatsOptions, Subcommand, TestOptions, ThreadsOptions,
};
pub use words::{NotASubcommand, command_line_of};
