//! The subcommand that words make: clap reads them, and what it refuses is told on standard error with the name that
//! was meant. Files are not opened here.

ghost use Rattle.std.specs.Prelude.{◌≡◌, IfOk, IfSome, Some, codes};
ghost use Rattle.clap.specs.Matches.{first_value, found_of};
ghost use Rattle.elide_args.specs.Asked.{Asks, IsCounting, IsHunt, IsMachine, IsPage, IsPicture, IsSchedule};
ghost use Rattle.elide_args.specs.Line.{IsLine, IsParsedLine};
ghost use Rattle.elide_args.specs.Asked.{IsSearch, IsSession, IsShown, IsTrying, IsWork, ShowsNothing};
ghost use Rattle.elide_args.specs.Asked.{texts_of, values_of};

use crate::hunt_options::HuntOptions;
use crate::line::command_line;
use crate::near::near_subcommand;
use crate::subcommand::{
    AsmOptions, CommandLine, DisOptions, DrawOptions, ExplainOptions, MachineOptions,
    OutcomesOptions, PageOptions, ReplayOptions, RunOptions, ScheduleOptions, SessionOptions,
    StatsOptions, Subcommand, TestOptions, ThreadsOptions,
};
use clap::error::ErrorKind;
use clap::{ArgMatches, Error};
use std::alloc::{AllocError, Global};
use std::fmt;
use std::fmt::Write;
use text_out::Out;

/// What words come to that make no subcommand.
#[derive(Clone, Copy, PartialEq, Eq, Debug)]
pub enum NotASubcommand {
    /// They ask for a text, of help or of the version, which was written.
    Helped,
    /// They are refused, with a text.
    Misused,
    /// There is no memory to read them.
    NoMemory,
    /// The text that they ask for was not written whole.
    NotWritten,
}

/// What the arguments ask for, given without the program's name. Where they make no subcommand, the text that they ask
/// for is written on `out`, and one that refuses them on `err`.
pub fn command_line_of<'a, O: Out, E: Out>(
    alloc: Global,
    words: &'a [&'a str],
    out: &mut O,
    err: &mut E,
) -> Result<CommandLine<'a>, NotASubcommand>
    ensures { IfOk result (IsParsedLine words.entry.now) }
{
    let Ok(line) = command_line(alloc) else {
        return Err(NotASubcommand::NoMemory);
    };
    match line.try_get_matches_from(words) {
        Ok(matches) => match asked(alloc, &matches) {
            Some(line) => Ok(line),
            None => Err(NotASubcommand::NoMemory),
        },
        Err(error) => Err(told(alloc, &error, words, out, err)),
    }
}

// Tells why clap met no subcommand.
fn told<O: Out, E: Out>(
    alloc: Global,
    error: &Error,
    words: &[&str],
    out: &mut O,
    err: &mut E,
) -> NotASubcommand {
    match error.kind() {
        ErrorKind::OutOfMemory => NotASubcommand::NoMemory,
        ErrorKind::DisplayHelp | ErrorKind::DisplayVersion => match write(error, out) {
            Ok(()) => NotASubcommand::Helped,
            Err(_) => NotASubcommand::NotWritten,
        },
        ErrorKind::InvalidSubcommand => {
            // A failure here has no further place to be told.
            let _ = write(error, err);
            suggest(alloc, words, err);
            NotASubcommand::Misused
        }
        _ => {
            let _ = write(error, err);
            NotASubcommand::Misused
        }
    }
}

// Writes the name that the first word is near, in clap's words, where clap has written none.
fn suggest<E: Out>(alloc: Global, words: &[&str], err: &mut E) {
    let Some(word) = words.first() else {
        return;
    };
    if let Ok(Some(name)) = near_subcommand(alloc, word) {
        let mut device = Device { out: err };
        let _ = writeln!(device, "\n  tip: a similar subcommand exists: '{name}'");
    }
}

// Writes clap's text.
fn write<O: Out>(error: &Error, out: &mut O) -> fmt::Result {
    let mut device = Device { out };
    write!(device, "{error}")
}

// A device that text is formatted to, which takes no memory.
#[derive(Drop)]
struct Device<'o, O> {
    out: &'o mut O,
}

impl<O: Out> fmt::Write for Device<'_, O> {
    fn write_str(&mut self, text: &str) -> fmt::Result {
        self.out.put(text.as_bytes()).map_err(|_| fmt::Error)
    }
}

// What the words came to.
fn asked<'a>(alloc: Global, matches: &ArgMatches<'a>) -> Option<CommandLine<'a>>
    ensures { IfSome result (IsLine matches.now) }
{
    let (name, options) = matches.subcommand()?;
    Some(CommandLine {
        subcommand: any_named(alloc, name, options)?,
        color: options.get_str("color"),
        words: options.get_str("words"),
    })
}

// The subcommand of a name, with these options. None, too, where there is no memory.
fn any_named<'a>(alloc: Global, name: &str, options: &ArgMatches<'a>) -> Option<Subcommand<'a>>
    ensures { IfSome result (Asks (found_of options.now) name.now) }
{
    match name {
        "hunt" => Some(Subcommand::Hunt(hunt_of(alloc, options)?)),
        "outcomes" => Some(Subcommand::Outcomes(search_of(alloc, options)?)),
        "test" => Some(Subcommand::Test(test_of(alloc, options)?)),
        "explain" => Some(Subcommand::Explain(ExplainOptions {
            fault: options.get_str("FAULT"),
        })),
        other => subcommand_named(alloc, other, options),
    }
}

// `any_named` for the subcommands that it does not name: each takes FILE. None, too, where there is no memory.
fn subcommand_named<'a>(
    alloc: Global,
    name: &str,
    options: &ArgMatches<'a>,
) -> Option<Subcommand<'a>>
    ensures { IfSome result (Asks (found_of options.now) name.now) }
{
    let file = options.get_str("FILE")?;
    match name {
        "asm" => Some(Subcommand::Asm(AsmOptions {
            file,
            lists: options.get_flag("list"),
        })),
        "dis" => Some(Subcommand::Dis(DisOptions {
            file,
            shows_labels: options.get_flag("labels"),
        })),
        "run" => Some(Subcommand::Run(RunOptions {
            machine: shown_machine_of(alloc, file, options)?,
            schedule: schedule_of(options),
            traces: options.get_flag("trace"),
            shows_code: options.get_flag("code"),
            explains: options.get_flag("why"),
            expects_halt: options.get_flag("expect-halt"),
            record: options.get_str("record"),
            is_json: options.get_flag("json"),
        })),
        "threads" => Some(Subcommand::Threads(threads_of(alloc, file, options)?)),
        "replay" => Some(Subcommand::Replay(ReplayOptions {
            machine: shown_machine_of(alloc, file, options)?,
            schedule: schedule_of(options),
            explains: options.get_flag("why"),
            record: options.get_str("record"),
            is_json: options.get_flag("json"),
        })),
        "debug" => Some(Subcommand::Debug(session_of(alloc, file, options)?)),
        "gdb" => Some(Subcommand::Gdb(session_of(alloc, file, options)?)),
        "stats" => Some(Subcommand::Stats(stats_of(alloc, file, options))),
        "draw" => Some(Subcommand::Draw(draw_of(alloc, file, options)?)),
        "page" => Some(Subcommand::Page(page_of(alloc, file, options)?)),
        _ => None,
    }
}

// The options of `hunt`, where there is memory for those that are given several times.
fn hunt_of<'a>(alloc: Global, options: &ArgMatches<'a>) -> Option<HuntOptions<'a>>
    ensures { IfSome result (IsHunt (found_of options.now)) }
{
    let file = options.get_str("FILE")?;
    Some(HuntOptions {
        machine: machine_of(alloc, file, options),
        checks: several_of(alloc, options, "check").ok()?,
        forbids: several_of(alloc, options, "forbid").ok()?,
        stops: several_of(alloc, options, "stop").ok()?,
        expects_halt: options.get_flag("expect-halt"),
        runs: options.get_str("runs"),
        seed: options.get_str("seed"),
        method: options.get_str("method"),
        events: options.get_str("events"),
        limit: options.get_str("limit"),
        jobs: options.get_str("jobs"),
        record: options.get_str("record"),
        page: options.get_str("page"),
        is_json: options.get_flag("json"),
    })
}

// The options of `outcomes`, where there is memory for those that are given several times.
fn search_of<'a>(alloc: Global, options: &ArgMatches<'a>) -> Option<OutcomesOptions<'a>>
    ensures { IfSome result (IsSearch (found_of options.now)) }
{
    let file = options.get_str("FILE")?;
    Some(OutcomesOptions {
        machine: machine_of(alloc, file, options),
        show: options.get_str("show"),
        shows_names: options.get_flag("names"),
        events: options.get_str("events"),
        limit: options.get_str("limit"),
        checks: several_of(alloc, options, "check").ok()?,
        forbids: several_of(alloc, options, "forbid").ok()?,
        stops: several_of(alloc, options, "stop").ok()?,
        asks_stuck: options.get_flag("stuck"),
        page: several_of(alloc, options, "page").ok()?,
        is_json: options.get_flag("json"),
    })
}

// The options of `test`, where there is memory for its files.
fn test_of<'a>(alloc: Global, options: &ArgMatches<'a>) -> Option<TestOptions<'a>>
    ensures { IfSome result (IsTrying (found_of options.now)) }
{
    Some(TestOptions {
        files: several_of(alloc, options, "FILE").ok()?,
        list: options.get_str("list"),
        jobs: options.get_str("jobs"),
        is_json: options.get_flag("json"),
    })
}

// The values of an option that is given several times.
fn several_of<'a>(
    alloc: Global,
    options: &ArgMatches<'a>,
    name: &str,
) -> Result<Vec<&'a str>, AllocError>
    ensures { IfOk result (λ values. texts_of values.items ≡ values_of (found_of options.now) name.now) }
{
    match options.get_strs(name) {
        Some(values) => Vec::from_slice(alloc, values),
        None => Ok(Vec::new(alloc)),
    }
}

fn threads_of<'a>(
    alloc: Global,
    file: &'a str,
    options: &ArgMatches<'a>,
) -> Option<ThreadsOptions<'a>>
    requires { first_value (found_of options.now) (codes "FILE") ≡ Some file.now }
    ensures { IfSome result (IsWork (found_of options.now)) }
{
    Some(ThreadsOptions {
        machine: shown_machine_of(alloc, file, options)?,
        budget: options.get_str("budget"),
        burst: options.get_str("burst"),
        events: options.get_str("events"),
        seed: options.get_str("seed"),
        explains: options.get_flag("why"),
        counts: options.get_flag("stats"),
        is_json: options.get_flag("json"),
        record: options.get_str("record"),
    })
}

fn stats_of<'a>(alloc: Global, file: &'a str, options: &ArgMatches<'a>) -> StatsOptions<'a>
    requires { first_value (found_of options.now) (codes "FILE") ≡ Some file.now }
    ensures { IsCounting (found_of options.now) result }
{
    StatsOptions {
        machine: machine_of(alloc, file, options),
        schedule: schedule_of(options),
        record: options.get_str("record"),
        is_json: options.get_flag("json"),
    }
}

fn session_of<'a>(
    alloc: Global,
    file: &'a str,
    options: &ArgMatches<'a>,
) -> Option<SessionOptions<'a>>
    requires { first_value (found_of options.now) (codes "FILE") ≡ Some file.now }
    ensures { IfSome result (IsSession (found_of options.now)) }
{
    Some(SessionOptions {
        machine: shown_machine_of(alloc, file, options)?,
        schedule: schedule_of(options),
    })
}

fn draw_of<'a>(alloc: Global, file: &'a str, options: &ArgMatches<'a>) -> Option<DrawOptions<'a>>
    requires { first_value (found_of options.now) (codes "FILE") ≡ Some file.now }
    ensures { IfSome result (IsPicture (found_of options.now)) }
{
    Some(DrawOptions {
        machine: shown_machine_of(alloc, file, options)?,
        schedule: schedule_of(options),
        record: options.get_str("record"),
        from: options.get_str("from"),
        to: options.get_str("to"),
        cores: options.get_str("core"),
    })
}

fn page_of<'a>(alloc: Global, file: &'a str, options: &ArgMatches<'a>) -> Option<PageOptions<'a>>
    requires { first_value (found_of options.now) (codes "FILE") ≡ Some file.now }
    ensures { IfSome result (IsPage (found_of options.now)) }
{
    Some(PageOptions {
        machine: shown_machine_of(alloc, file, options)?,
        schedule: schedule_of(options),
        from: options.get_str("from"),
        to: options.get_str("to"),
        notes: several_of(alloc, options, "note").ok()?,
        title: options.get_str("title"),
        output: options.get_str("output"),
    })
}

// The machine of a command that prints nothing of memory.
fn machine_of<'a>(alloc: Global, file: &'a str, options: &ArgMatches<'a>) -> MachineOptions<'a>
    requires { first_value (found_of options.now) (codes "FILE") ≡ Some file.now }
    ensures machine { IsMachine (found_of options.now) result }
    ensures shown { ShowsNothing result }
{
    MachineOptions {
        file,
        cores: options.get_str("cores"),
        memory: options.get_str("mem"),
        entry: options.get_str("entry"),
        reads: options.get_str("reads"),
        writes: options.get_str("writes"),
        store_buffer: options.get_str("store-buffer"),
        dumps: Vec::new(alloc),
        shows: Vec::new(alloc),
    }
}

// The machine of a command that prints of memory what it is asked for. None, where there is no memory for that list.
fn shown_machine_of<'a>(
    alloc: Global,
    file: &'a str,
    options: &ArgMatches<'a>,
) -> Option<MachineOptions<'a>>
    requires { first_value (found_of options.now) (codes "FILE") ≡ Some file.now }
    ensures machine { IfSome result (IsMachine (found_of options.now)) }
    ensures shown { IfSome result (IsShown (found_of options.now)) }
{
    let mut machine = machine_of(alloc, file, options);
    machine.dumps = several_of(alloc, options, "dump").ok()?;
    machine.shows = several_of(alloc, options, "show").ok()?;
    Some(machine)
}

fn schedule_of<'a>(options: &ArgMatches<'a>) -> ScheduleOptions<'a>
    ensures { IsSchedule (found_of options.now) result }
{
    ScheduleOptions {
        steps: options.get_str("steps"),
        path: options.get_str("schedule"),
        in_turn: options.get_flag("in-turn"),
        random: options.get_str("random"),
        events: options.get_str("events"),
        seed: options.get_str("seed"),
        limit: options.get_str("limit"),
    }
}
