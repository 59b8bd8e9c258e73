//! The subcommands, as data, each with its options and the words of its help.

use crate::options::{
    BUDGET, BURST, CHECK, CHECK_OF_ALL, CODE, COLOR, CORE, CORES, COUNTS, COUNTS_JSON, DUMP,
    DUMP_READ, ENTRY, EVENT_SEED, EVENT_SEED_OF_CORES, EVENTS, EVENTS_OF_ALL, EVENTS_OF_RUNS,
    EXPECT_HALT, FAULT, FILE, FORBID, FORBID_OF_ALL, FROM, FROM_ON_PAGE, IN_TURN, JOBS, JSON,
    JSON_LINES, LABELS, LIMIT, LIST, MEM, METHOD, NAMES, NOTE, OUTPUT, OptionText, PAGE_OF_FAILURE,
    PAGE_OF_OUTCOME, RANDOM, READS, RECORD, RECORD_FIRST, RUNS, SCHEDULE, SEED, SHOW, SHOW_DRAWN,
    SHOW_ON_PAGE, SHOW_VALUE, SOURCE, STATES, STEPS, STOP, STOP_OF_ALL, STORE_BUFFER, STUCK, TESTS,
    TESTS_JOBS, TESTS_LISTED, TITLE, TO, TO_ON_PAGE, TRACE, WHY, WORDS, WRITES,
};

/// A subcommand.
#[derive(Clone, Copy)]
pub struct SubcommandText {
    /// Its name.
    pub name: &'static str,
    /// What the help says of it.
    pub about: &'static str,
    /// What the help ends with.
    pub example: &'static str,
    /// Its options, in the order of the help.
    pub options: &'static [OptionText],
}

/// The subcommands, in the order of the help.
pub const SUBCOMMANDS: [SubcommandText; 14] = [
    ASM, DIS, RUN, THREADS, REPLAY, DEBUG, GDB, HUNT, OUTCOMES, TEST, STATS, DRAW, PAGE, EXPLAIN,
];

const ASM: SubcommandText = SubcommandText {
    name: "asm",
    about: "Assembles a source and prints its image text",
    example: "Example: elide asm examples/elision.asm --list",
    options: &[SOURCE, LIST, WORDS, COLOR],
};

const DIS: SubcommandText = SubcommandText {
    name: "dis",
    about: "Prints the instructions of a program's code",
    example: "Example: elide dis examples/increment.img",
    options: &[FILE, LABELS, WORDS, COLOR],
};

const RUN: SubcommandText = SubcommandText {
    name: "run",
    about: "Runs a schedule of core steps and prints the state",
    example: "Example: elide run examples/increment.img --cores 2 --steps \"0 1 0 1 0 1 0 1\" --dump 0x1000:4",
    options: &[
        FILE,
        CORES,
        MEM,
        ENTRY,
        READS,
        WRITES,
        STORE_BUFFER,
        DUMP,
        SHOW_VALUE,
        STEPS,
        SCHEDULE,
        TRACE,
        CODE,
        WHY,
        EXPECT_HALT,
        IN_TURN,
        RANDOM,
        EVENTS,
        EVENT_SEED,
        LIMIT,
        RECORD,
        JSON_LINES,
        WORDS,
        COLOR,
    ],
};

const THREADS: SubcommandText = SubcommandText {
    name: "threads",
    about: "Runs each core on a thread of its own and prints the state",
    example: "Example: elide threads examples/elision.asm --cores 4 --budget 1000000 --record schedule.txt",
    options: &[
        FILE,
        CORES,
        MEM,
        ENTRY,
        READS,
        WRITES,
        STORE_BUFFER,
        DUMP,
        SHOW_VALUE,
        BUDGET,
        BURST,
        EVENTS,
        EVENT_SEED_OF_CORES,
        WHY,
        COUNTS,
        COUNTS_JSON,
        RECORD_FIRST,
        WORDS,
        COLOR,
    ],
};

const REPLAY: SubcommandText = SubcommandText {
    name: "replay",
    about: "Runs a schedule, compares it with a serial run on one memory, and prints the state and `agree` or `differ`",
    example: "Example: elide replay examples/conflict.img --cores 2 --steps \"0 0 1 1 0 0 0 1\"",
    options: &[
        FILE,
        CORES,
        MEM,
        ENTRY,
        READS,
        WRITES,
        STORE_BUFFER,
        DUMP,
        SHOW_VALUE,
        STEPS,
        SCHEDULE,
        WHY,
        IN_TURN,
        RANDOM,
        EVENTS,
        EVENT_SEED,
        LIMIT,
        RECORD,
        JSON_LINES,
        WORDS,
        COLOR,
    ],
};

const DEBUG: SubcommandText = SubcommandText {
    name: "debug",
    about: "Answers commands that are read from standard input, of which `help` prints a list; goes along a schedule, and back",
    example: "Example: elide debug examples/conflict.img --cores 2 --random 7",
    options: &[
        FILE,
        CORES,
        MEM,
        ENTRY,
        READS,
        WRITES,
        STORE_BUFFER,
        DUMP_READ,
        STEPS,
        SCHEDULE,
        IN_TURN,
        RANDOM,
        EVENTS,
        EVENT_SEED,
        LIMIT,
        WORDS,
        COLOR,
    ],
};

const GDB: SubcommandText = SubcommandText {
    name: "gdb",
    about: "Speaks gdb's remote protocol on standard input and output: each core is a thread, and gdb goes back, too",
    example: "Example: gdb prog.elf -ex 'target remote | elide gdb prog.elf --cores 2'",
    options: &[
        FILE,
        CORES,
        MEM,
        ENTRY,
        READS,
        WRITES,
        STORE_BUFFER,
        STEPS,
        SCHEDULE,
        IN_TURN,
        RANDOM,
        EVENTS,
        EVENT_SEED,
        LIMIT,
        WORDS,
        COLOR,
    ],
};

const HUNT: SubcommandText = SubcommandText {
    name: "hunt",
    about: "Runs a program by many random schedules until a check fails, and shortens the schedule that fails",
    example: "Example: elide hunt examples/faulty/no-read.asm --cores 2 --check 'count == 6' --record schedule.txt",
    options: &[
        FILE,
        CORES,
        MEM,
        ENTRY,
        READS,
        WRITES,
        STORE_BUFFER,
        CHECK,
        FORBID,
        STOP,
        EXPECT_HALT,
        RUNS,
        SEED,
        METHOD,
        EVENTS_OF_RUNS,
        LIMIT,
        JOBS,
        RECORD,
        PAGE_OF_FAILURE,
        JSON_LINES,
        WORDS,
        COLOR,
    ],
};

const OUTCOMES: SubcommandText = SubcommandText {
    name: "outcomes",
    about: "Searches all schedules of a small program and prints each outcome",
    example: "Example: elide outcomes examples/litmus/store-buffering.asm --cores 2 --show 'eax@0 eax@1'",
    options: &[
        FILE,
        CORES,
        MEM,
        ENTRY,
        READS,
        WRITES,
        STORE_BUFFER,
        SHOW,
        NAMES,
        EVENTS_OF_ALL,
        STATES,
        CHECK_OF_ALL,
        FORBID_OF_ALL,
        STOP_OF_ALL,
        STUCK,
        PAGE_OF_OUTCOME,
        JSON_LINES,
        WORDS,
        COLOR,
    ],
};

const TEST: SubcommandText = SubcommandText {
    name: "test",
    about: "Carries out the commands in the comments of sources, and compares what came about with what is expected there",
    example: "Example: elide test examples/litmus",
    options: &[TESTS, TESTS_LISTED, TESTS_JOBS, JSON_LINES, WORDS, COLOR],
};

const STATS: SubcommandText = SubcommandText {
    name: "stats",
    about: "Runs a schedule of core steps and prints what its transactions came to, by the place of their XBEGIN",
    example: "Example: elide stats examples/elision.asm --cores 4 --random 7",
    options: &[
        FILE,
        CORES,
        MEM,
        ENTRY,
        READS,
        WRITES,
        STORE_BUFFER,
        STEPS,
        SCHEDULE,
        IN_TURN,
        RANDOM,
        EVENTS,
        EVENT_SEED,
        LIMIT,
        RECORD,
        JSON,
        WORDS,
        COLOR,
    ],
};

const DRAW: SubcommandText = SubcommandText {
    name: "draw",
    about: "Runs a schedule of core steps and draws a timeline of it, as SVG",
    example: "Example: elide draw examples/elision.asm --cores 4 --random 7 --from 380 --to 560 > timeline.svg",
    options: &[
        FILE,
        CORES,
        MEM,
        ENTRY,
        READS,
        WRITES,
        STORE_BUFFER,
        SHOW_DRAWN,
        STEPS,
        SCHEDULE,
        IN_TURN,
        RANDOM,
        EVENTS,
        EVENT_SEED,
        LIMIT,
        RECORD,
        FROM,
        TO,
        CORE,
        WORDS,
        COLOR,
    ],
};

const PAGE: SubcommandText = SubcommandText {
    name: "page",
    about: "Runs a schedule of core steps and writes it as one HTML page to step through, forward and back",
    example: "Example: elide page examples/conflict.asm --cores 2 --steps '0 0 0 1 1 1 0 1 0 0' --output page.html",
    options: &[
        FILE,
        CORES,
        MEM,
        ENTRY,
        READS,
        WRITES,
        STORE_BUFFER,
        SHOW_ON_PAGE,
        STEPS,
        SCHEDULE,
        IN_TURN,
        RANDOM,
        EVENTS,
        EVENT_SEED,
        LIMIT,
        FROM_ON_PAGE,
        TO_ON_PAGE,
        NOTE,
        TITLE,
        OUTPUT,
        WORDS,
        COLOR,
    ],
};

const EXPLAIN: SubcommandText = SubcommandText {
    name: "explain",
    about: "Prints what a fault means, and what to do",
    example: "Example: elide explain 16",
    options: &[FAULT, WORDS, COLOR],
};
