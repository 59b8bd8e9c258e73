//! The options of `hunt`, as they were given, and none where one is not. Numbers are words still: whoever uses one
//! reads it, and tells its range.

use crate::subcommand::MachineOptions;

/// The options of `hunt`.
#[derive(Drop)]
pub struct HuntOptions<'a> {
    /// The machine.
    pub machine: MachineOptions<'a>,
    /// `--check`: what is to hold at the end.
    pub checks: Vec<&'a str>,
    /// `--forbid`: what is not to hold at the end.
    pub forbids: Vec<&'a str>,
    /// `--stop`: what no core stops for.
    pub stops: Vec<&'a str>,
    /// Whether a run that reaches the limit fails.
    pub expects_halt: bool,
    /// `--runs`: how many runs are made, or their numbers.
    pub runs: Option<&'a str>,
    /// `--seed`: what the schedules are drawn from.
    pub seed: Option<&'a str>,
    /// `--method`: how the core of each step is drawn.
    pub method: Option<&'a str>,
    /// `--events`: how the events are drawn that steps come under.
    pub events: Option<&'a str>,
    /// `--limit`: the most steps of a run.
    pub limit: Option<&'a str>,
    /// `--jobs`: how many threads make runs.
    pub jobs: Option<&'a str>,
    /// `--record`: the path that the schedule is written to.
    pub record: Option<&'a str>,
    /// `--page`: the path that the page of the run that fails is written to.
    pub page: Option<&'a str>,
    /// Whether JSON is printed in place of lines.
    pub is_json: bool,
}
