//! Serial runs and boards with store buffers, of programs and steps that were written by hand: what each ends with, at
//! which step a list is no run, and what is printed of pending stores.
//!
//! X is the doubleword at 1000h and Y the one at 1040h, on a line of its own; a core begins with its number in EAX. The
//! code of a program lies from 100h on, core by core, in a memory of 65,536 bytes. What is wanted was worked out from
//! x86-TSO and the manual's words on transactions, and not by this program.

mod rows;

use ia_image::{Program, load};
use ia_word::from_le;
use rows::{REFUSED, RUNS};
use std::alloc::Global;
use std::fmt;
use std::process::Abort;
use text_out::{ToVec, WriteFault};
use tm_core::{Limits, Machine, NoSuchCore};
use tm_hist::{
    Board, History, Serial, SerialFault, serial, serial_with, write_core as write_core_line,
    write_pending, write_state,
};
use tm_model::Interference::Interrupt;
use tm_model::Outcome;
use tm_model::Outcome::{
    Aborted, AbortedBy, Begun, Committed, Drained, Idle, Inside, Loaded, Plain, Stopped,
};
use tm_rule::Stop;

/// The bytes of an instruction. That of `low` is the first byte of X, that of `next` the second; XBEGIN has its
/// fallback so many bytes behind itself.
fn instruction_of(word: &str) -> Option<&'static [u8]> {
    let bytes = match word {
        "x=1" => b"\xc7\x05\x00\x10\x00\x00\x01\x00\x00\x00".as_slice(),
        "x=2" => b"\xc7\x05\x00\x10\x00\x00\x02\x00\x00\x00".as_slice(),
        "x=5" => b"\xc7\x05\x00\x10\x00\x00\x05\x00\x00\x00".as_slice(),
        "y=1" => b"\xc7\x05\x40\x10\x00\x00\x01\x00\x00\x00".as_slice(),
        "y=2" => b"\xc7\x05\x40\x10\x00\x00\x02\x00\x00\x00".as_slice(),
        "low=1" => b"\xc6\x05\x00\x10\x00\x00\x01".as_slice(),
        "low=7" => b"\xc6\x05\x00\x10\x00\x00\x07".as_slice(),
        "next=2" => b"\xc6\x05\x01\x10\x00\x00\x02".as_slice(),
        "x=eax" => b"\xa3\x00\x10\x00\x00".as_slice(),
        "eax=x" => b"\xa1\x00\x10\x00\x00".as_slice(),
        "eax=y" => b"\xa1\x40\x10\x00\x00".as_slice(),
        "eax=2" => b"\xb8\x02\x00\x00\x00".as_slice(),
        "inc_eax" => b"\x40".as_slice(),
        "inc_x" => b"\xff\x05\x00\x10\x00\x00".as_slice(),
        "lock_inc_x" => b"\xf0\xff\x05\x00\x10\x00\x00".as_slice(),
        "xchg_y" => b"\x87\x05\x40\x10\x00\x00".as_slice(),
        "mfence" => b"\x0f\xae\xf0".as_slice(),
        "lfence" => b"\x0f\xae\xe8".as_slice(),
        "sfence" => b"\x0f\xae\xf8".as_slice(),
        "cpuid" => b"\x0f\xa2".as_slice(),
        "hlt" => b"\xf4".as_slice(),
        "xbegin+0" => b"\xc7\xf8\x00\x00\x00\x00".as_slice(),
        "xbegin+3" => b"\xc7\xf8\x03\x00\x00\x00".as_slice(),
        "xbegin+8" => b"\xc7\xf8\x08\x00\x00\x00".as_slice(),
        "xbegin+15" => b"\xc7\xf8\x0f\x00\x00\x00".as_slice(),
        "xabort" => b"\xc6\xf8\x01".as_slice(),
        "xend" => b"\x0f\x01\xd5".as_slice(),
        _ => return None,
    };
    Some(bytes)
}

/// The outcome of a word.
fn outcome_of(word: &str) -> Option<Outcome> {
    match word {
        "plain" => Some(Plain),
        "loaded" => Some(Loaded),
        "drained" => Some(Drained),
        "halted" => Some(Stopped(Stop::Halt)),
        "idle" => Some(Idle),
        "begun" => Some(Begun),
        "inside" => Some(Inside),
        "committed" => Some(Committed),
        "conflict" => Some(Aborted(6)),
        "xabort" => Some(Aborted(0x0100_0001)),
        "interrupt" => Some(AbortedBy(Interrupt, 0)),
        _ => None,
    }
}

/// What a row begins with: a program, how many stores of a core may be pending, and steps.
#[derive(Drop)]
struct Run {
    program: Program,
    cores: u8,
    stores: u32,
    steps: Vec<(u8, Outcome)>,
}

impl Run {
    /// Runs the steps.
    fn serial(&self, alloc: Global) -> Result<Serial, SerialFault> {
        serial_with(alloc, &self.program, self.stores, History::new(&self.steps))
    }
}

/// The program of cores that a bar parts.
fn program_of(rt: &impl Abort, alloc: Global, text: &str) -> Program {
    let mut code = Vec::new(alloc);
    let mut entries = Vec::new(alloc);
    for core in text.split(" | ") {
        let before = u32::try_from(code.as_slice().len()).expect(rt, "a short program");
        let entry = before.wrapping_add(0x100);
        entries.push(entry).expect(rt, "ample memory");
        for word in core.split_whitespace() {
            let bytes = instruction_of(word).expect(rt, "an instruction");
            code.extend_from_slice(bytes).expect(rt, "ample memory");
        }
    }
    let length = u32::try_from(code.as_slice().len()).expect(rt, "a short program");
    load(alloc, &code, 0x100, length, 0x10000, &entries).expect(rt, "the program is loaded")
}

/// Steps as `0 plain, 1 drained`.
fn steps_of(rt: &impl Abort, alloc: Global, text: &str) -> Vec<(u8, Outcome)> {
    let mut steps = Vec::new(alloc);
    for step in text.split(", ") {
        let (core, word) = step.split_once(" ").expect(rt, "a core and an outcome");
        let core = core.parse::<u8>().expect(rt, "the number of a core");
        let outcome = outcome_of(word).expect(rt, "an outcome");
        steps.push((core, outcome)).expect(rt, "ample memory");
    }
    steps
}

/// The run of a row, and its last field. Semicolons part the fields.
fn run_of<'a>(rt: &impl Abort, alloc: Global, row: &'a str) -> (Run, &'a str) {
    let (_name, rest) = row.split_once("; ").expect(rt, "a name");
    let (cores, rest) = rest.split_once("; ").expect(rt, "the instructions");
    let (stores, rest) = rest.split_once("; ").expect(rt, "the size");
    let (steps, wanted) = rest.split_once("; ").expect(rt, "the steps");
    let program = program_of(rt, alloc, cores);
    let run = Run {
        cores: program.cores(),
        program,
        stores: stores.parse::<u32>().expect(rt, "a number of stores"),
        steps: steps_of(rt, alloc, steps),
    };
    (run, wanted)
}

/// What a run of so many cores ends with, as a row writes it.
#[derive(Clone, Copy)]
struct Ended<'a> {
    end: &'a Serial,
    cores: u8,
}

impl fmt::Display for Ended<'_> {
    /// Of each core EAX, EIP, its stop and its pending stores, the oldest first; then X and Y.
    fn fmt<W: fmt::Write>(&self, f: &mut fmt::Formatter<W>) -> fmt::Result {
        for core in 0..self.cores {
            write_core(self.end, core, f)?;
            f.write_str(", ")?;
        }
        let memory = self.end.memory();
        write!(
            f,
            "x={:x} y={:x}",
            doubleword_at(memory, 0x1000),
            doubleword_at(memory, 0x1040)
        )
    }
}

fn write_core<W: fmt::Write>(end: &Serial, core: u8, f: &mut fmt::Formatter<W>) -> fmt::Result {
    if let Ok(regs) = end.regs(core) {
        write!(f, "eax={:x} eip={:x}", regs.gpr[0], regs.eip)?;
    }
    if let Ok(Some(stop)) = end.stop(core) {
        write!(f, " {stop:?}")?;
    }
    if let Ok(stores) = end.pending(core) {
        for store in stores {
            write!(
                f,
                " pending {:?} {:x}={:x}",
                store.width, store.addr, store.value
            )?;
        }
    }
    Ok(())
}

/// The doubleword at an address of memory.
fn doubleword_at(memory: &[u8], at: usize) -> u32 {
    let byte = |offset: usize| memory.get(at.wrapping_add(offset)).copied().unwrap_or(0);
    from_le([byte(0), byte(1), byte(2), byte(3)])
}

#[test]
fn each_run_ends_as_its_row_says(rt: HostRuntime) {
    let alloc = rt.alloc();
    for row in RUNS.lines() {
        let (run, wanted) = run_of(&rt, alloc, row);
        let end = run.serial(alloc).expect(&rt, "a row of a run");
        let ended = Ended {
            end: &end,
            cores: run.cores,
        };
        let text = format!(in alloc; "{ended}").expect(&rt, "ample memory");
        assert_eq!(rt; text.as_str(), wanted, "{row}");
        assert_eq!(rt; end.memory().len(), 0x10000);
    }
}

#[test]
fn each_list_is_refused_where_its_row_says(rt: HostRuntime) {
    let alloc = rt.alloc();
    for row in REFUSED.lines() {
        let (run, wanted) = run_of(&rt, alloc, row);
        let index = wanted.parse::<usize>().expect(&rt, "an index");
        match run.serial(alloc) {
            Ok(_) => assert!(rt; false, "a run: {row}"),
            Err(fault) => assert!(rt; fault == SerialFault::NotARun(index), "{row}"),
        }
    }
}

/// A board with room for so many stores of a core.
fn board_of(rt: &impl Abort, alloc: Global, program: &Program, stores: u32) -> Board {
    let limits = Limits {
        read_lines: 16,
        write_lines: 16,
        stores,
    };
    Board::new(alloc, program, limits, 100).expect(rt, "a board")
}

// A board makes each run, drains and aborts as its picks tell of them, and its history is replayed.
#[test]
fn each_run_is_a_boards(rt: HostRuntime) {
    let alloc = rt.alloc();
    for row in RUNS.lines() {
        let (run, wanted) = run_of(&rt, alloc, row);
        let mut board = board_of(&rt, alloc, &run.program, run.stores);
        let history = History::new(&run.steps);
        for index in 0..history.len() {
            let pick = history.pick_at(index).expect(&rt, "a pick");
            let (_core, outcome) = history.get(index).expect(&rt, "a step");
            assert_eq!(rt; board.step_by(pick), Ok(outcome), "step {index}: {row}");
        }
        let end = board.replay(alloc).expect(&rt, "a run is replayed");
        let ended = Ended {
            end: &end,
            cores: run.cores,
        };
        let text = format!(in alloc; "{ended}").expect(&rt, "ample memory");
        assert_eq!(rt; text.as_str(), wanted, "{row}");
        assert!(rt; end.memory() == board.machine().view(), "{row}");
    }
}

// Under no event a store stays pending until a step waits for it, and that step is its drain.
#[test]
fn a_step_that_waits_is_a_drain(rt: HostRuntime) {
    let alloc = rt.alloc();
    let program = program_of(&rt, alloc, "x=1 y=2 eax=x mfence hlt");
    let mut board = board_of(&rt, alloc, &program, 2);
    let pending = [1, 2, 2, 1, 0, 0, 0, 0];
    let told = [
        Plain,
        Plain,
        Plain,
        Drained,
        Drained,
        Plain,
        Stopped(Stop::Halt),
        Idle,
    ];
    for (outcome, count) in told.iter().zip(pending.iter()) {
        assert_eq!(rt; board.step(0), Ok(*outcome));
        let stores = board.machine().pending(0).expect(&rt, "a core");
        assert_eq!(rt; stores.len(), *count);
    }
    assert!(rt; board.replay(alloc).is_ok());
}

/// What is printed of a board's stores that are pending, of two cores and of one that is not there.
fn pending_lines(alloc: Global, board: &Board) -> Result<Vec<u8>, WriteFault> {
    let mut out = ToVec::new(Vec::new(alloc));
    for core in 0..3 {
        write_pending(board.machine(), core, &mut out)?;
    }
    Ok(out.bytes)
}

/// What is printed of a machine's state, and the same by its parts.
fn state_lines(alloc: Global, machine: &Machine) -> Result<(Vec<u8>, Vec<u8>), WriteFault> {
    let mut whole = ToVec::new(Vec::new(alloc));
    write_state(machine, &mut whole)?;
    let mut parts = ToVec::new(Vec::new(alloc));
    for core in 0..machine.cores() {
        write_core_line(machine, core, &mut parts)?;
    }
    for core in 0..machine.cores() {
        write_pending(machine, core, &mut parts)?;
    }
    Ok((whole.bytes, parts.bytes))
}

// The oldest first, a byte in two digits and a doubleword in eight; nothing where there is no room for a store.
#[test]
fn pending_stores_are_printed(rt: HostRuntime) {
    let alloc = rt.alloc();
    let program = program_of(&rt, alloc, "x=1 low=7 | y=2");
    let lines = "pending 0 00001000 00000001\npending 0 00001000 07\npending 1 00001040 00000002\n";
    for (stores, wanted) in [(0, ""), (4, lines)] {
        let mut board = board_of(&rt, alloc, &program, stores);
        for core in [0, 0, 1] {
            assert_eq!(rt; board.step(core), Ok(Plain));
        }
        let text = pending_lines(alloc, &board).expect(&rt, "written");
        assert!(rt;
            text.as_slice() == wanted.as_bytes(),
            "with room for {stores}"
        );
        let (whole, parts) = state_lines(alloc, board.machine()).expect(&rt, "written");
        assert!(rt; whole == parts, "with room for {stores}");
    }
}

// The history of a machine with store buffers is none of a machine without: its first drain is no step there. A
// `serial_with` that lost the size, or a `serial` that went past drains, would run it in both.
#[test]
fn without_store_buffers_the_first_drain_is_refused(rt: HostRuntime) {
    let alloc = rt.alloc();
    let row = RUNS.lines().next().expect(&rt, "the first row");
    let (run, _wanted) = run_of(&rt, alloc, row);
    let history = History::new(&run.steps);
    assert!(rt; run.stores == 1 && run.serial(alloc).is_ok());
    assert_eq!(rt; run.steps.as_slice().get(4), Some(&(0, Drained)));
    for refused in [
        serial(alloc, &run.program, history),
        serial_with(alloc, &run.program, 0, history),
    ] {
        assert!(rt; matches!(refused, Err(SerialFault::NotARun(4))));
    }
}

// With room for no store each core has an empty list, and none a core that is not there.
#[test]
fn pending_stores_are_of_a_core(rt: HostRuntime) {
    let alloc = rt.alloc();
    let program = program_of(&rt, alloc, "x=1 y=1 | hlt");
    let steps = [(0, Plain), (0, Plain)];
    for (stores, pending) in [(0, 0), (2, 2)] {
        let end = serial_with(alloc, &program, stores, History::new(&steps));
        let end = end.expect(&rt, "it is a run");
        let counts = [0, 1].map(|core| end.pending(core).map(|stores| stores.len()));
        assert!(rt; counts == [Ok(pending), Ok(0)], "with room for {stores}");
        assert!(rt; end.pending(2) == Err(NoSuchCore), "with room for {stores}");
    }
}
