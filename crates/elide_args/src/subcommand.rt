//! What the words of a command line ask for. The values are texts of the words, and no one has read them yet.

use crate::hunt_options::HuntOptions;

/// What the words of a command line come to.
#[derive(Drop)]
pub struct CommandLine<'a> {
    /// The subcommand.
    pub subcommand: Subcommand<'a>,
    /// `--color`: when messages and listings are painted.
    pub color: Option<&'a str>,
    /// `--words`: when it is told beside a fault where it stands and what is meant.
    pub words: Option<&'a str>,
}

/// A subcommand with its options.
#[derive(Drop)]
pub enum Subcommand<'a> {
    /// `asm`.
    Asm(AsmOptions<'a>),
    /// `dis`.
    Dis(DisOptions<'a>),
    /// `run`.
    Run(RunOptions<'a>),
    /// `threads`.
    Threads(ThreadsOptions<'a>),
    /// `replay`.
    Replay(ReplayOptions<'a>),
    /// `debug`.
    Debug(SessionOptions<'a>),
    /// `gdb`.
    Gdb(SessionOptions<'a>),
    /// `hunt`.
    Hunt(HuntOptions<'a>),
    /// `outcomes`.
    Outcomes(OutcomesOptions<'a>),
    /// `test`.
    Test(TestOptions<'a>),
    /// `stats`.
    Stats(StatsOptions<'a>),
    /// `draw`.
    Draw(DrawOptions<'a>),
    /// `page`.
    Page(PageOptions<'a>),
    /// `explain`.
    Explain(ExplainOptions<'a>),
}

/// The options of `asm`.
#[derive(Clone, Copy)]
pub struct AsmOptions<'a> {
    /// The path of the source.
    pub file: &'a str,
    /// Whether the listing is printed in place of the image text.
    pub lists: bool,
}

/// The options of `dis`.
#[derive(Clone, Copy)]
pub struct DisOptions<'a> {
    /// The path of the program.
    pub file: &'a str,
    /// `--labels`: whether labels are printed, too.
    pub shows_labels: bool,
}

/// The options of `run`.
#[derive(Drop)]
pub struct RunOptions<'a> {
    /// The machine.
    pub machine: MachineOptions<'a>,
    /// The schedule.
    pub schedule: ScheduleOptions<'a>,
    /// Whether the outcome of each step is printed.
    pub traces: bool,
    /// `--code`: whether the outcome of each step is printed with its instruction.
    pub shows_code: bool,
    /// Whether the reason of each abort is printed.
    pub explains: bool,
    /// Whether a core that has not stopped at the end is a failure.
    pub expects_halt: bool,
    /// `--record`: the path that the schedule is written to.
    pub record: Option<&'a str>,
    /// Whether JSON is printed in place of lines.
    pub is_json: bool,
}

/// The options of `threads`.
#[derive(Drop)]
pub struct ThreadsOptions<'a> {
    /// The machine.
    pub machine: MachineOptions<'a>,
    /// `--budget`: the most steps of each core.
    pub budget: Option<&'a str>,
    /// `--burst`: how many steps a core makes before another can come between.
    pub burst: Option<&'a str>,
    /// `--events`: which steps come under an event from outside.
    pub events: Option<&'a str>,
    /// `--seed`: what the events are drawn from.
    pub seed: Option<&'a str>,
    /// Whether the reason of each abort is printed.
    pub explains: bool,
    /// `--stats`: whether what the transactions came to is printed in place of the state.
    pub counts: bool,
    /// `--json`: whether what is printed is JSON in place of lines and columns.
    pub is_json: bool,
    /// `--record`: the path that the schedule is written to.
    pub record: Option<&'a str>,
}

/// The options of `replay`.
#[derive(Drop)]
pub struct ReplayOptions<'a> {
    /// The machine.
    pub machine: MachineOptions<'a>,
    /// The schedule.
    pub schedule: ScheduleOptions<'a>,
    /// Whether the reason of each abort is printed.
    pub explains: bool,
    /// `--record`: the path that the schedule is written to.
    pub record: Option<&'a str>,
    /// Whether JSON is printed in place of lines.
    pub is_json: bool,
}

/// The options of `debug` and of `gdb`.
#[derive(Drop)]
pub struct SessionOptions<'a> {
    /// The machine.
    pub machine: MachineOptions<'a>,
    /// The schedule that a session goes along, where one is given.
    pub schedule: ScheduleOptions<'a>,
}

/// The options of `explain`.
#[derive(Clone, Copy)]
pub struct ExplainOptions<'a> {
    /// The number or the name of a fault.
    pub fault: Option<&'a str>,
}

/// The options of `outcomes`.
#[derive(Drop)]
pub struct OutcomesOptions<'a> {
    /// The machine.
    pub machine: MachineOptions<'a>,
    /// `--show`: what is shown of the state where all cores have stopped.
    pub show: Option<&'a str>,
    /// `--names`: whether the items and labels are named.
    pub shows_names: bool,
    /// `--events`: which events from outside steps come under.
    pub events: Option<&'a str>,
    /// `--limit`: the most states.
    pub limit: Option<&'a str>,
    /// `--check`: what is to hold at each end, in the order of the command line.
    pub checks: Vec<&'a str>,
    /// `--forbid`: what is not to hold at any end, in the order of the command line.
    pub forbids: Vec<&'a str>,
    /// `--stop`: the reasons to stop that are looked for, in the order of the command line.
    pub stops: Vec<&'a str>,
    /// `--stuck`: whether states without a way to an end fail the search.
    pub asks_stuck: bool,
    /// `--page`: the number of an outcome, and the path that the page of its run is written to; nothing, or both.
    pub page: Vec<&'a str>,
    /// Whether JSON is printed in place of lines.
    pub is_json: bool,
}

/// The options of `test`.
#[derive(Drop)]
pub struct TestOptions<'a> {
    /// The paths of files and folders with tests, in the order of the command line.
    pub files: Vec<&'a str>,
    /// `--list`: the path of a file that names more of them, one a line.
    pub list: Option<&'a str>,
    /// `--jobs`: how many threads try files.
    pub jobs: Option<&'a str>,
    /// Whether JSON is printed in place of lines.
    pub is_json: bool,
}

/// The options of `stats`.
#[derive(Drop)]
pub struct StatsOptions<'a> {
    /// The machine.
    pub machine: MachineOptions<'a>,
    /// The schedule.
    pub schedule: ScheduleOptions<'a>,
    /// `--record`: the path that the schedule is written to.
    pub record: Option<&'a str>,
    /// Whether JSON is printed in place of columns.
    pub is_json: bool,
}

/// The options of `draw`.
#[derive(Drop)]
pub struct DrawOptions<'a> {
    /// The machine.
    pub machine: MachineOptions<'a>,
    /// The schedule.
    pub schedule: ScheduleOptions<'a>,
    /// `--record`: the path that the schedule is written to.
    pub record: Option<&'a str>,
    /// `--from`: the first step that is drawn.
    pub from: Option<&'a str>,
    /// `--to`: the last step that is drawn.
    pub to: Option<&'a str>,
    /// `--core`: the cores that are drawn.
    pub cores: Option<&'a str>,
}

/// The options of `page`.
#[derive(Drop)]
pub struct PageOptions<'a> {
    /// The machine. Its `--show` are the variables that are shown.
    pub machine: MachineOptions<'a>,
    /// The schedule.
    pub schedule: ScheduleOptions<'a>,
    /// `--from`: the first step that the page has.
    pub from: Option<&'a str>,
    /// `--to`: the last step that the page has.
    pub to: Option<&'a str>,
    /// `--note`: the notes, in the order of the command line.
    pub notes: Vec<&'a str>,
    /// `--title`: the title.
    pub title: Option<&'a str>,
    /// `--output`: the path that the page is written to.
    pub output: Option<&'a str>,
}

/// The options of each command that makes a machine, of which only FILE is there for certain.
#[derive(Drop)]
pub struct MachineOptions<'a> {
    /// The path of the program.
    pub file: &'a str,
    /// `--cores`.
    pub cores: Option<&'a str>,
    /// `--mem`.
    pub memory: Option<&'a str>,
    /// `--entry`.
    pub entry: Option<&'a str>,
    /// `--reads`.
    pub reads: Option<&'a str>,
    /// `--writes`.
    pub writes: Option<&'a str>,
    /// `--store-buffer`.
    pub store_buffer: Option<&'a str>,
    /// `--dump`, in the order of the command line.
    pub dumps: Vec<&'a str>,
    /// `--show` of a run, in the order of the command line.
    pub shows: Vec<&'a str>,
}

/// The options that give a schedule, of which a command takes exactly one; `debug` and `gdb` take none, too.
#[derive(Clone, Copy)]
pub struct ScheduleOptions<'a> {
    /// `--steps`: a list of core numbers.
    pub steps: Option<&'a str>,
    /// `--schedule`: the path of a schedule text.
    pub path: Option<&'a str>,
    /// `--in-turn`: round by round.
    pub in_turn: bool,
    /// `--random`: the seed of a schedule by chance.
    pub random: Option<&'a str>,
    /// `--events`: which steps of a schedule that is no list come under an event from outside.
    pub events: Option<&'a str>,
    /// `--seed`: what the events of a schedule round by round are drawn from.
    pub seed: Option<&'a str>,
    /// `--limit`: the most steps of a schedule that is no list.
    pub limit: Option<&'a str>,
}
