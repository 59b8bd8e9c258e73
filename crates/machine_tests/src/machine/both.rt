//! Runs over both representations of the sets: what each step comes to, and what is shown and told before and behind
//! it, is the same. What that is over the directory, the worked rows of `doc_tests` show.

ghost use Rattle.std.specs.Prelude.{◌≤◌};

use super::program;
use ia_image::Program;
use std::alloc::Global;
use std::process::Abort;
use tm_core::{Limits, Machine, transactions_are_as_they_went};
use tm_sets::{Kind, PlainSets};

/// Runs, one a line: what is special about it, the code and the entries of the cores in hex, how many lines each may
/// read and write, and the cores that step. Core 0 is in its transaction where nothing else is said.
const RUNS: &str = "\
two increments side by side, and core 0 goes on to its XEND; c7f80f000000a10010000040a3001000000f01d5f4f4; \
100 100; 512 512; 0 0 1 1 0 0 0 1\n\
core 1 loads what core 0 has stored, and goes on to its XEND; c7f80f000000a10010000040a3001000000f01d5f4f4; \
100 100; 512 512; 0 0 0 0 1 1 0 1 1 1\n\
one increment behind the other; c7f80f000000a10010000040a3001000000f01d5f4f4; \
100 100; 512 512; 0 0 0 0 0 0 1 1 1 1 1 1\n\
INC of memory on two cores, a step each in turn; ff0500100000f4; 100 100; 512 512; 0 1 0 1 0 1 0 1\n\
LOCK INC on two cores; f0ff0500100000f4; 100 100; 512 512; 0 1 0 1\n\
a store of core 1 to the line that is loaded; c7f80f000000a10010000040a3001000000f01d5f4f4c6053c10000007; \
100 116; 512 512; 0 0 1 0\n\
a store of core 1 to the line behind; c7f80f000000a10010000040a3001000000f01d5f4f4c6055410000007; \
100 116; 512 512; 0 0 1 0\n\
LOCK CMPXCHG of core 1 on the line that is loaded; c7f80f000000a10010000040a3001000000f01d5f4f4f00fb11d00100000; \
100 116; 512 512; 0 0 1 0\n\
two stores of core 1 to the line that is stored; \
c7f80f000000a10010000040a3001000000f01d5f4f4c6050010000007c6050010000007; 100 116; 512 512; 0 0 0 0 1 1 0\n\
a load of core 1 from the line that is stored; c7f80f000000a10010000040a3001000000f01d5f4f4a100100000; \
100 116; 512 512; 0 0 0 0 1 0\n\
a load of core 1 from the line that is loaded; c7f80f000000a10010000040a3001000000f01d5f4f4a13c100000; \
100 116; 512 512; 0 0 1 0\n\
INC of core 1 on the line that is loaded, core 0 in between; c7f80f000000a10010000040a3001000000f01d5f4f4ff0500100000; \
100 116; 512 512; 0 0 1 0 1 0\n\
the first step of INC of core 1 on the line that is stored; c7f80f000000a10010000040a3001000000f01d5f4f4ff0500100000; \
100 116; 512 512; 0 0 0 0 1 0\n\
XABORT; c7f800000000c6f8ab; 100; 512 512; 0 0\n\
XABORT in a nested transaction; c7f800000000c7f800000000c6f8ab; 100; 512 512; 0 0 0\n\
HLT behind an XBEGIN that is its own fallback; c7f8fafffffff4; 100; 512 512; 0 0 0 0\n\
DIV by 0 in a transaction; c7f800000000f7f3; 100; 512 512; 0 0\n\
eight XBEGIN, nested; \
c7f800000000c7f800000000c7f800000000c7f800000000c7f800000000c7f800000000c7f800000000c7f800000000; \
100; 512 512; 0 0 0 0 0 0 0 0\n\
a store and a load over two lines; c7f800000000c7053e10000044332211a13e1000000f01d5; 100; 512 512; 0 0 0 0\n\
a store over two lines with room for one; c7f800000000c7053e10000044332211a13e1000000f01d5; 100; 512 1; 0 0\n\
a store to a second line with room for one; c7f800000000f9c6050010000001c6054010000002; 100; 512 1; 0 0 0 0\n\
a store to a second line with room for two; c7f800000000f9c6050010000001c6054010000002; 100; 512 2; 0 0 0 0\n\
a load of four bytes, of which one is stored; c7f800000000c6050110000055a100100000; 100; 512 512; 0 0 0\n\
XTEST outside and inside of a transaction; 0f01d6c7f8000000000f01d6; 100; 512 512; 0 0 0\n\
XEND outside of transactions; 0f01d5; 100; 512 512; 0 0\n\
a load, ADD and a store on two cores; a10010000083c001a300100000f4; 100 100; 512 512; 0 1 0 1 0 1 0 1\n\
ADD that carries; b8ffffffff83c001; 100; 512 512; 0 0\n\
CMP that overflows, and ADD in both forms; b800000080bb0100000039d801d803c3; 100; 512 512; 0 0 0 0 0\n\
PUSH ESP and POP ESP; 545c; 100; 512 512; 0 0\n\
CPUID, leaf 7; b80700000031c90fa2; 100; 512 512; 0 0 0\n\
a jump into its own last byte; ebffc0f4; 100; 512 512; 0 0 0\n\
code that ends inside of XBEGIN; c7f80f00; 100; 512 512; 0 0\n\
LOCK MOV; f08918; 100; 512 512; 0 0\n\
DIV by 0; f7f3; 100; 512 512; 0 0\n\
a store into the code; a300010000; 100; 512 512; 0 0\n\
a store into the code in a transaction; c7f800000000a300010000; 100; 512 512; 0 0\n\
a load that ends two bytes behind memory; a1feff0000; 100; 512 512; 0 0\n\
a load that ends a byte behind memory; a1fdff0000; 100; 512 512; 0 0\n\
a load of the last bytes of memory; a1fcff0000; 100; 512 512; 0\n\
a store of core 1 over both lines that a load reached; c7f800000000a13e100000a33e100000; 100 10b; 512 512; 0 0 1 0\n\
a store of core 1 to the second line that a load reached; c7f800000000a13e100000a340100000; 100 10b; 512 512; 0 0 1\n\
a load of core 1 over two lines, the second stored; c7f800000000a340100000a13e100000; 100 10b; 512 512; 0 0 1\n\
a load of core 1 over two lines that are loaded; c7f800000000a13e100000a13e100000; 100 10b; 512 512; 0 0 1\n\
a load of core 1 in a transaction over two lines, the second stored; c7f800000000a340100000c7f800000000a13e100000; \
100 10b; 512 512; 0 0 1 1\n\
XCHG of core 1 on the line that is stored; c7f800000000a30010000087050010000090; 100 10b; 512 512; 0 0 1\n\
LOCK INC of core 1 on the line that is stored; c7f800000000a300100000f0ff0500100000; 100 10b; 512 512; 0 0 1\n\
INC of core 1 on the line that is loaded; c7f800000000a100100000ff0500100000; 100 10b; 512 512; 0 0 1 1\n\
INC of core 1 on the line that is stored; c7f800000000a300100000ff0500100000; 100 10b; 512 512; 0 0 1 1\n\
two lines that core 1 has loaded, stored in the other order; \
c7f800000000a380100000a3001000000f01d5c7f800000000a180100000a100100000; 100 113; 512 512; 1 1 1 0 0 0 0 1\n\
INT3 in a transaction; c7f800000000cc; 100; 512 512; 0 0\n\
PAUSE in a transaction; c7f800000000f390; 100; 512 512; 0 0\n\
CPUID in a transaction; c7f8000000000fa2; 100; 512 512; 0 0\n\
HLT in a transaction; c7f800000000f4; 100; 512 512; 0 0\n\
UD2 in a transaction; c7f8000000000f0b; 100; 512 512; 0 0\n\
a load behind memory in a transaction; c7f800000000a100000100; 100; 512 512; 0 0\n\
a store behind memory in a transaction; c7f800000000a300000100; 100; 512 512; 0 0\n\
code that ends behind XBEGIN; c7f800000000; 100; 512 512; 0 0\n\
PUSH ES in a transaction; c7f80000000006; 100; 512 512; 0 0\n\
a load over two lines with room for one; c7f800000000a13e100000f4f4f4f4f4; 100; 1 1; 0 0\n\
a store over two lines with room for one line of each kind; c7f800000000a33e100000f4f4f4f4f4; 100; 1 1; 0 0\n\
a load from two lines more with room for one; c7f800000000a100100000a17e100000; 100; 1 1; 0 0 0\n\
a store to a line below with room for one; c7f800000000a300100000a3fc0f0000; 100; 1 1; 0 0 0\n";

/// A run of the table.
#[derive(Drop)]
pub struct Run {
    pub code: Vec<u8>,
    pub entries: Vec<u32>,
    pub limits: Limits,
    pub steps: Vec<u8>,
}

fn entries_of(alloc: Global, words: &str) -> Option<Vec<u32>> {
    let mut entries = Vec::new(alloc);
    for word in words.split_whitespace() {
        entries.push(u32::from_str_radix(word, 16).ok()?).ok()?;
    }
    Some(entries)
}

fn steps_of(alloc: Global, words: &str) -> Option<Vec<u8>> {
    let mut steps = Vec::new(alloc);
    for word in words.split_whitespace() {
        steps.push(word.parse::<u8>().ok()?).ok()?;
    }
    Some(steps)
}

fn limits_of(words: &str) -> Option<Limits> {
    let (reads, writes) = words.split_once(' ')?;
    Some(Limits {
        read_lines: reads.parse::<u32>().ok()?,
        write_lines: writes.parse::<u32>().ok()?,
        stores: 0,
    })
}

/// The run of a row, whose name only tells it from the others.
pub fn run_of(alloc: Global, row: &str) -> Option<Run> {
    let (_name, rest) = row.split_once("; ")?;
    let (digits, rest) = rest.split_once("; ")?;
    let (entries, rest) = rest.split_once("; ")?;
    let (limits, steps) = rest.split_once("; ")?;
    Some(Run {
        code: hex::decode(alloc, digits).ok()?,
        entries: entries_of(alloc, entries)?,
        limits: limits_of(limits)?,
        steps: steps_of(alloc, steps)?,
    })
}

/// A machine over plain sets.
fn over_plain_sets(
    rt: &impl Abort,
    alloc: Global,
    program: &Program,
    limits: Limits,
) -> Machine<PlainSets>
    requires some_read { 1 ≤ limits.read_lines }
    requires most_read { limits.read_lines ≤ 4096 }
    requires some_written { 1 ≤ limits.write_lines }
    requires most_written { limits.write_lines ≤ 4096 }
{
    let lines = program.mem_size() / 64;
    match PlainSets::new(
        alloc,
        program.cores(),
        lines,
        limits.read_lines,
        limits.write_lines,
    ) {
        Ok(sets) => Machine::with_sets(alloc, program, limits, sets).expect(rt, "makes"),
        Err(_) => panic!(rt; "ample memory"),
    }
}

/// Both show the same of a core.
fn show_alike(
    rt: &impl Abort,
    alloc: Global,
    listed: &Machine,
    plain: &Machine<PlainSets>,
    core: u8,
) {
    assert_eq!(rt; listed.state(core), plain.state(core));
    assert!(rt; listed.regs(core) == plain.regs(core));
    assert!(rt; listed.base_regs(core) == plain.base_regs(core));
    for kind in [Kind::Read, Kind::Write] {
        let lines = listed.sets(alloc, core, kind).expect(rt, "lines");
        let others = plain.sets(alloc, core, kind).expect(rt, "lines");
        assert_eq!(rt; lines.as_slice(), others.as_slice());
    }
}

/// Both tell the same of a core's next step before it is made: why it is an abort, whom it hits and on which line. And
/// both tell how large its sets are.
fn tell_alike(rt: &impl Abort, listed: &Machine, plain: &Machine<PlainSets>, core: u8) {
    let told = listed.preview(core).expect(rt, "previews");
    let other = plain.preview(core).expect(rt, "previews");
    assert_eq!(rt; told.reason, other.reason);
    assert_eq!(rt; listed.counts(core), plain.counts(core));
    for victim in 0..listed.cores() {
        assert_eq!(rt; listed.hit_by(&told, victim), plain.hit_by(&other, victim));
    }
}

/// Both show the same memory, and show and tell the same of each core.
fn all_alike(rt: &impl Abort, alloc: Global, listed: &Machine, plain: &Machine<PlainSets>) {
    assert_eq!(rt; listed.cores(), plain.cores());
    assert!(rt; listed.view() == plain.view());
    for core in 0..listed.cores() {
        show_alike(rt, alloc, listed, plain, core);
        tell_alike(rt, listed, plain, core);
    }
}

/// A run comes to the same on both.
fn run_alike(rt: &impl Abort, alloc: Global, run: &Run) {
    let limits = run.limits;
    assert!(rt; limits.read_lines >= 1);
    assert!(rt; limits.read_lines <= 4096);
    assert!(rt; limits.write_lines >= 1);
    assert!(rt; limits.write_lines <= 4096);
    let program = program(rt, alloc, run.code.as_slice(), run.entries.as_slice());
    let mut listed: Machine = Machine::new(alloc, &program, limits).expect(rt, "makes");
    let mut plain = over_plain_sets(rt, alloc, &program, limits);
    all_alike(rt, alloc, &listed, &plain);
    for core in run.steps.as_slice() {
        assert_eq!(rt; listed.step(*core), plain.step(*core));
        all_alike(rt, alloc, &listed, &plain);
    }
}

#[test]
fn runs_are_the_same(rt: HostRuntime) {
    transactions_are_as_they_went();
    for row in RUNS.lines() {
        match run_of(rt.alloc(), row) {
            Some(run) => run_alike(&rt, rt.alloc(), &run),
            None => assert!(rt; false, "no run: {row}"),
        }
    }
}
