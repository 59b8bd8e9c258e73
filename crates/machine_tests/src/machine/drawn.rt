//! Drawn programs of two cores, several steps of one core one behind the other: what is made at once leaves what the
//! steps leave one by one.

use super::program;
use super::whole::made_at_once;
use ia_image::Program;
use ia_regs::Regs;
use std::alloc::Global;
use std::process::Abort;
use tm_core::{Limits, Machine};
use tm_model::CoreState;

/// What programs are drawn from, in hex: instructions on registers, loads and stores on two lines and across their
/// border, some of which overlap, pushes, pops, calls and jumps; and some that are no row or end a transaction: bytes,
/// XTEST, a store into code, a load beyond memory, PAUSE, XABORT, XBEGIN and XEND.
const INSTRUCTIONS: &[&str] = &[
    "40",
    "01c8",
    "8d4c0104",
    "a100100000",
    "8b0d02100000",
    "a13e100000",
    "a300100000",
    "890d03100000",
    "a33e100000",
    "c7050410000044332211",
    "ff0500100000",
    "ff0d40100000",
    "010502100000",
    "83053e10000007",
    "391500100000",
    "50",
    "5b",
    "68efbeadde",
    "e800000000",
    "eb00",
    "7501",
    "c6050110000055",
    "0f01d6",
    "a300010000",
    "a100200000",
    "f390",
    "c6f8ab",
    "c7f800000000",
    "0f01d5",
];

/// The first so many of them are rows that go on.
const ROWS: u32 = 21;

/// The limits on lines.
const LIMITS: &[(u32, u32)] = &[(512, 512), (32, 32), (17, 9), (2, 1)];

/// Numbers, one after another.
#[derive(Drop)]
struct Draw {
    state: u32,
}

impl Draw {
    /// The next number, below this one.
    fn below(&mut self, bound: u32) -> u32 {
        self.state = self
            .state
            .wrapping_mul(1_664_525)
            .wrapping_add(1_013_904_223);
        (self.state >> 16).checked_rem(bound).unwrap_or(0)
    }
}

fn append(rt: &impl Abort, alloc: Global, code: &mut Vec<u8>, digits: &str) {
    let bytes = hex::decode(alloc, digits).expect(rt, "digits");
    code.extend_from_slice(bytes.as_slice())
        .expect(rt, "memory");
}

/// An instruction: one time in eight any of them, else a row.
fn append_drawn(rt: &impl Abort, alloc: Global, code: &mut Vec<u8>, draw: &mut Draw) {
    let any = draw.below(8) == 0;
    let index = draw.below(if any { 29 } else { ROWS });
    if let Some(digits) = INSTRUCTIONS.get(index as usize) {
        append(rt, alloc, code, digits);
    }
}

/// Some instructions.
fn append_some(rt: &impl Abort, alloc: Global, code: &mut Vec<u8>, draw: &mut Draw, count: u32) {
    for _ in 0..count {
        append_drawn(rt, alloc, code, draw);
    }
}

/// A program: thrice some instructions, and some in a transaction.
fn program_of(rt: &impl Abort, alloc: Global, draw: &mut Draw) -> Program {
    let mut code = Vec::new(alloc);
    for _ in 0..3u32 {
        let before = draw.below(3);
        append_some(rt, alloc, &mut code, draw, before);
        append(rt, alloc, &mut code, "c7f800000000");
        let inside = draw.below(8);
        append_some(rt, alloc, &mut code, draw, inside);
        append(rt, alloc, &mut code, "0f01d5");
    }
    append(rt, alloc, &mut code, "f4");
    program(rt, alloc, code.as_slice(), &[0x100, 0x100])
}

/// Steps of two cores, in rows.
fn steps_of(rt: &impl Abort, alloc: Global, draw: &mut Draw) -> Vec<u8> {
    let mut steps = Vec::new(alloc);
    for _ in 0..8u32 {
        let core = if draw.below(2) == 0 { 0u8 } else { 1u8 };
        for _ in 0..draw.below(16) {
            steps.push(core).expect(rt, "memory");
        }
    }
    steps
}

/// Limits on lines, and so many stores of a core pending.
fn limits_of(draw: &mut Draw, stores: u32) -> Limits {
    let (read_lines, write_lines) = match LIMITS.get(draw.below(4) as usize) {
        Some(limits) => *limits,
        None => (512, 512),
    };
    Limits {
        read_lines,
        write_lines,
        stores,
    }
}

#[test]
fn drawn_steps_at_once_are_the_steps(rt: HostRuntime) {
    let mut draw = Draw { state: 7 };
    let mut transactions = 0u32;
    for _ in 0..200u32 {
        let program = program_of(&rt, rt.alloc(), &mut draw);
        let steps = steps_of(&rt, rt.alloc(), &mut draw);
        let limits = limits_of(&mut draw, 0);
        let made = made_at_once(&rt, rt.alloc(), &program, limits, steps.as_slice());
        transactions = transactions.saturating_add(made.transactions);
    }
    assert!(rt; transactions >= 40, "{transactions} transactions");
}

// While stores may be pending, only steps on registers are made at once.
#[test]
fn drawn_steps_at_once_are_the_steps_with_store_buffers(rt: HostRuntime) {
    let mut draw = Draw { state: 11 };
    let mut on_registers = 0u32;
    for _ in 0..60u32 {
        let program = program_of(&rt, rt.alloc(), &mut draw);
        let steps = steps_of(&rt, rt.alloc(), &mut draw);
        let stores = draw.below(4).saturating_add(1);
        let limits = limits_of(&mut draw, stores);
        let made = made_at_once(&rt, rt.alloc(), &program, limits, steps.as_slice());
        assert_eq!(rt; made.transactions, 0);
        on_registers = on_registers.saturating_add(made.on_registers);
    }
    assert!(rt; on_registers >= 40, "{on_registers} steps");
}

/// What a core alone ends with where it stops: the bytes that it stored, and its registers.
fn ended(
    rt: &impl Abort,
    alloc: Global,
    program: &Program,
    limits: Limits,
) -> Option<(Vec<u8>, Regs)> {
    let mut machine: Machine = Machine::new(alloc, program, limits).expect(rt, "makes");
    let _made = machine.steps_alone(0, 400);
    match (machine.state(0), machine.regs(0)) {
        (Ok(CoreState::Stopped(_)), Ok(regs)) => {
            let bytes = Vec::from_slice(alloc, machine.view()).expect(rt, "memory");
            Some((bytes, regs))
        }
        _ => None,
    }
}

// Nobody but other cores sees that stores are pending: a core alone ends as without.
#[test]
fn a_core_alone_ends_as_without_a_store_buffer(rt: HostRuntime) {
    let mut draw = Draw { state: 13 };
    let mut stopped = 0u32;
    for _ in 0..60u32 {
        let program = program_of(&rt, rt.alloc(), &mut draw);
        let stores = draw.below(4).saturating_add(1);
        let limits = limits_of(&mut draw, stores);
        let without = Limits {
            stores: 0,
            ..limits
        };
        let buffered = ended(&rt, rt.alloc(), &program, limits);
        let at_once = ended(&rt, rt.alloc(), &program, without);
        if let (Some((bytes, regs)), Some((others, same))) = (buffered, at_once) {
            assert!(rt; bytes == others && regs == same, "with room for {stores}");
            stopped = stopped.saturating_add(1);
        }
    }
    assert!(rt; stopped >= 40, "{stopped} stopped");
}
