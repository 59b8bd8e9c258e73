//! The options, as data: of each its name, what follows it and what help says. Readers, help, manual page and
//! completions are made of this one list.

/// An option of a subcommand, or a word that has its place.
#[derive(Clone, Copy)]
pub struct OptionText {
    /// Its name: of an option, what stands behind `--`.
    pub name: &'static str,
    /// How it is given.
    pub form: Form,
    /// What the help says of it.
    pub help: &'static str,
}

/// How an option is given.
#[derive(Clone, Copy)]
pub enum Form {
    /// A word in its place, which has to be there.
    Word,
    /// A word in its place, which may be left out.
    FreeWord,
    /// Any number of words in their place.
    FreeWords,
    /// `--name` alone.
    Flag,
    /// `--name` and a value of this name.
    Value(&'static str),
    /// `--name` and a value of this name, which has to be given.
    Needed(&'static str),
    /// `--name` and a value of this name, any number of times.
    Several(&'static str),
    /// `--name` and a value of this name, or else the second.
    Default(&'static str, &'static str),
    /// `--name` and one value of each of these names.
    Each(&'static [&'static str]),
}

pub const SOURCE: OptionText = OptionText {
    name: "FILE",
    form: Form::Word,
    help: "An assembler source, in NASM's syntax",
};

pub const FILE: OptionText = OptionText {
    name: "FILE",
    form: Form::Word,
    help: "A program: image text, whose first line is `image 1 BASE CODE`, an ELF executable, or else an assembler source",
};

pub const TESTS: OptionText = OptionText {
    name: "FILE",
    form: Form::FreeWords,
    help: "A source or a `.elide` file with tests in its comments, or a folder, of which the `.asm` and `.elide` files are taken",
};

pub const TESTS_LISTED: OptionText = OptionText {
    name: "list",
    form: Form::Value("PATH"),
    help: "Takes names from this file, too, one a line",
};

pub const TESTS_JOBS: OptionText = OptionText {
    name: "jobs",
    form: Form::Value("N"),
    help: "How many files are tried side by side, 1 to 1024 [default: one a processor]",
};

pub const FAULT: OptionText = OptionText {
    name: "FAULT",
    form: Form::FreeWord,
    help: "A fault's number or name; without it the numbers and names of all are printed",
};

pub const LIST: OptionText = OptionText {
    name: "list",
    form: Form::Flag,
    help: "Prints the listing in place of the image text",
};

pub const LABELS: OptionText = OptionText {
    name: "labels",
    form: Form::Flag,
    help: "Prints each label above the instruction that it stands before, and other instructions whole with what they are",
};

pub const CORES: OptionText = OptionText {
    name: "cores",
    form: Form::Value("N"),
    help: "Number of cores, 1 to 64 [default: 1]",
};

pub const MEM: OptionText = OptionText {
    name: "mem",
    form: Form::Value("BYTES"),
    help: "Memory size: a multiple of 4096, at least 4096 * (cores + 1), at most 268435456 [default: 65536]",
};

pub const ENTRY: OptionText = OptionText {
    name: "entry",
    form: Form::Value("AT[,AT..]"),
    help: "Where the cores begin: an address or a symbol, one for all or one a core [default: the base, of an executable its entry]",
};

pub const READS: OptionText = OptionText {
    name: "reads",
    form: Form::Value("LINES"),
    help: "Lines of 64 bytes that a transaction can read, 1 to 4096 [default: 512]",
};

pub const WRITES: OptionText = OptionText {
    name: "writes",
    form: Form::Value("LINES"),
    help: "Lines of 64 bytes that a transaction can write, 1 to 4096 [default: 512]",
};

pub const STORE_BUFFER: OptionText = OptionText {
    name: "store-buffer",
    form: Form::Value("N"),
    help: "Stores of each core that may be pending before they reach memory, 0 to 64 [default: 0]",
};

pub const DUMP: OptionText = OptionText {
    name: "dump",
    form: Form::Several("AT:BYTES"),
    help: "Prints this part of memory after the cores; AT is a sum of symbols and numbers, as `table+8`",
};

pub const DUMP_READ: OptionText = OptionText {
    name: "dump",
    form: Form::Several("AT:BYTES"),
    help: "A part of memory that is wanted to be there; the command `mem` prints memory",
};

pub const SHOW_VALUE: OptionText = OptionText {
    name: "show",
    form: Form::Several("AT"),
    help: "Prints the doubleword there after the cores, in hex and decimal; AT is a sum of symbols and numbers",
};

pub const STEPS: OptionText = OptionText {
    name: "steps",
    form: Form::Value("LIST"),
    help: "The schedule: core numbers, as \"0 1 0 1\"; 0i, 0e, 0s, 0d: under an interrupt, an eviction, a snoop, a drain",
};

pub const SCHEDULE: OptionText = OptionText {
    name: "schedule",
    form: Form::Value("PATH"),
    help: "The schedule: a file whose first line is `schedule 1`, `schedule 2` or `schedule 3`",
};

pub const TRACE: OptionText = OptionText {
    name: "trace",
    form: Form::Flag,
    help: "Prints the outcome of each step before the state",
};

pub const CODE: OptionText = OptionText {
    name: "code",
    form: Form::Flag,
    help: "With --trace: each outcome goes on with the instruction's address, its text, and what it loaded and stored",
};

pub const WHY: OptionText = OptionText {
    name: "why",
    form: Form::Flag,
    help: "Prints each abort with its reason before the state: who hit it, on which line, and when it began",
};

pub const EXPECT_HALT: OptionText = OptionText {
    name: "expect-halt",
    form: Form::Flag,
    help: "A run that ends with a core that has not stopped fails (status 3)",
};

pub const IN_TURN: OptionText = OptionText {
    name: "in-turn",
    form: Form::Flag,
    help: "The schedule: round by round over the cores that have not stopped",
};

pub const RANDOM: OptionText = OptionText {
    name: "random",
    form: Form::Value("SEED"),
    help: "The schedule: each core that has not stopped as likely as another",
};

pub const EVENTS: OptionText = OptionText {
    name: "events",
    form: Form::Value("1/N[:KINDS]"),
    help: "Events: one step in N comes under one, `interrupt` or those of interrupt, eviction, snoop and drain that are named; `1`: each step",
};

pub const EVENTS_OF_RUNS: OptionText = OptionText {
    name: "events",
    form: Form::Value("draw|1/N[:KINDS]"),
    help: "Aborts from outside: `draw`, at a rate and of kinds that each run draws, or at one step in N, of interrupt, eviction and snoop",
};

pub const EVENTS_OF_ALL: OptionText = OptionText {
    name: "events",
    form: Form::Value("KINDS|always"),
    help: "Aborts from outside: each of the kinds (interrupt, eviction, snoop) at each step of each transaction; `always`: each step under an interrupt",
};

pub const EVENT_SEED: OptionText = OptionText {
    name: "seed",
    form: Form::Value("SEED"),
    help: "What --events are drawn from where there is no --random [default: 1]",
};

pub const EVENT_SEED_OF_CORES: OptionText = OptionText {
    name: "seed",
    form: Form::Value("SEED"),
    help: "What --events are drawn from [default: 1]",
};

pub const LIMIT: OptionText = OptionText {
    name: "limit",
    form: Form::Value("N"),
    help: "The most steps of a run [default: 1000000]",
};

pub const RECORD: OptionText = OptionText {
    name: "record",
    form: Form::Value("PATH"),
    help: "Writes the schedule that came about to this file",
};

pub const BUDGET: OptionText = OptionText {
    name: "budget",
    form: Form::Needed("N"),
    help: "The most steps of each core: cores times N is 1 to 16777216",
};

pub const BURST: OptionText = OptionText {
    name: "burst",
    form: Form::Value("N"),
    help: "The steps that a core makes before another can come between; by default 17 to 47, and fewer at first",
};

pub const RECORD_FIRST: OptionText = OptionText {
    name: "record",
    form: Form::Value("PATH"),
    help: "Writes the schedule that came about to this file, before the state is printed",
};

pub const CHECK: OptionText = OptionText {
    name: "check",
    form: Form::Several("CHECK"),
    help: "What holds where all cores have stopped: `count == 6`, also with !=, <, <=, > and >=, or `count:4=06000000` of bytes; several with && between. Beside doublewords at labels and numbers there are `&count`, `eax@0`, `commits@*` and `aborts:conflict@1`",
};

pub const FORBID: OptionText = OptionText {
    name: "forbid",
    form: Form::Several("CHECK"),
    help: "What does not hold where all cores have stopped, written as of --check",
};

pub const STOP: OptionText = OptionText {
    name: "stop",
    form: Form::Several("CAUSE"),
    help: "A core that stops for this reason fails the run: #BP (INT3), #DE, #UD, #GP, HLT, range, code-store, fetch or not-in-subset",
};

pub const RUNS: OptionText = OptionText {
    name: "runs",
    form: Form::Default("K|A..B", "10000"),
    help: "How many runs are made, or their numbers from A up to B - 1",
};

pub const SEED: OptionText = OptionText {
    name: "seed",
    form: Form::Default("SEED", "1"),
    help: "What the schedules are drawn from, with the number of the run",
};

pub const METHOD: OptionText = OptionText {
    name: "method",
    form: Form::Default("METHOD", "mix"),
    help: "How the core of each step is drawn: seen (drawn where other cores see), uniform, bursts, pct (random priorities), or mix: seen each second run, the others in turn",
};

pub const JOBS: OptionText = OptionText {
    name: "jobs",
    form: Form::Value("N"),
    help: "How many threads make runs, 1 to 1024 [default: one a processor]",
};

pub const SHOW: OptionText = OptionText {
    name: "show",
    form: Form::Value("ITEMS"),
    help: "What is shown where all cores have stopped: registers of cores, as eax@0, and doublewords at sums of symbols and numbers; wanted where none of --check, --forbid, --stop and --stuck is given",
};

pub const CHECK_OF_ALL: OptionText = OptionText {
    name: "check",
    form: Form::Several("CHECK"),
    help: "Tells a schedule to an end where this does not hold (status 3): `count == 6`, `eax@0 == 1 && &head != tail`; as of hunt, without the counts of a run",
};

pub const FORBID_OF_ALL: OptionText = OptionText {
    name: "forbid",
    form: Form::Several("CHECK"),
    help: "Tells a schedule to an end where this holds (status 3): an outcome that must not be, written as of --check",
};

pub const NAMES: OptionText = OptionText {
    name: "names",
    form: Form::Flag,
    help: "Prints the items in a line above the outcomes, and the label behind a value that is its address",
};

pub const SHOW_DRAWN: OptionText = OptionText {
    name: "show",
    form: Form::Several("AT"),
    help: "Draws a row of the doubleword there, where it changes; AT is a sum of symbols and numbers",
};

pub const SHOW_ON_PAGE: OptionText = OptionText {
    name: "show",
    form: Form::Several("AT"),
    help: "Shows the doubleword there at each step, and what a core alone sees; AT is a sum of symbols and numbers [default: up to six symbols that transactions use]",
};

pub const NOTE: OptionText = OptionText {
    name: "note",
    form: Form::Several("STEP:TEXT"),
    help: "Shows this text at this step, counted from 1, or at 0 before the first",
};

pub const TITLE: OptionText = OptionText {
    name: "title",
    form: Form::Value("TEXT"),
    help: "The title of the page [default: the name of FILE]",
};

pub const FROM_ON_PAGE: OptionText = OptionText {
    name: "from",
    form: Form::Value("A"),
    help: "The first step that the page has, counted from 1 [default: 1]",
};

pub const TO_ON_PAGE: OptionText = OptionText {
    name: "to",
    form: Form::Value("B"),
    help: "The last step that the page has [default: the last]",
};

pub const OUTPUT: OptionText = OptionText {
    name: "output",
    form: Form::Value("PATH"),
    help: "Writes the page to this file, whole or not at all [default: standard output]",
};

pub const PAGE_OF_FAILURE: OptionText = OptionText {
    name: "page",
    form: Form::Value("PATH"),
    help: "Writes the shortened run that fails as a page to this file, as `elide page` does",
};

pub const PAGE_OF_OUTCOME: OptionText = OptionText {
    name: "page",
    form: Form::Each(&["N", "PATH"]),
    help: "Writes the run of the Nth outcome, counted from 1, as a page to this file, as `elide page` does",
};

pub const STOP_OF_ALL: OptionText = OptionText {
    name: "stop",
    form: Form::Several("CAUSE"),
    help: "Tells a schedule after which a core has stopped for this reason (status 3): #BP (INT3), #DE, #UD, #GP, HLT, range, code-store, fetch or not-in-subset",
};

pub const STUCK: OptionText = OptionText {
    name: "stuck",
    form: Form::Flag,
    help: "Tells a schedule after which none leads on to an end, where there is one (status 3)",
};

pub const STATES: OptionText = OptionText {
    name: "limit",
    form: Form::Value("N"),
    help: "The most states; where there are more, the status is 3 [default: 1000000]",
};

pub const FROM: OptionText = OptionText {
    name: "from",
    form: Form::Value("A"),
    help: "The first step that is drawn, counted from 1 [default: 1]",
};

pub const TO: OptionText = OptionText {
    name: "to",
    form: Form::Value("B"),
    help: "The last step that is drawn [default: the last]",
};

pub const CORE: OptionText = OptionText {
    name: "core",
    form: Form::Value("N[,N..]"),
    help: "The cores that are drawn, in this order [default: all]",
};

pub const JSON: OptionText = OptionText {
    name: "json",
    form: Form::Flag,
    help: "Prints one JSON object in place of columns",
};

pub const JSON_LINES: OptionText = OptionText {
    name: "json",
    form: Form::Flag,
    help: "Prints one JSON object in place of the lines (docs/JSON.md)",
};

pub const COUNTS: OptionText = OptionText {
    name: "stats",
    form: Form::Flag,
    help: "Prints what the transactions came to, by the place of their XBEGIN, in place of the state",
};

pub const COUNTS_JSON: OptionText = OptionText {
    name: "json",
    form: Form::Flag,
    help: "Prints one JSON object in place of the lines (docs/JSON.md), with --stats that of `stats`",
};

pub const WORDS: OptionText = OptionText {
    name: "words",
    form: Form::Value("WHEN"),
    help: "Tells beside a fault where it stands and what is meant: auto, at a terminal or where ELIDE_WORDS is `always`, always or never [default: auto]",
};

pub const COLOR: OptionText = OptionText {
    name: "color",
    form: Form::Value("WHEN"),
    help: "Paints messages and listings: auto, where it is a terminal's and NO_COLOR is not set, always or never [default: auto]",
};
