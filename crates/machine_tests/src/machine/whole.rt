//! Steps at once, where a core's stand one behind the other: what is left is what they leave one by one.

ghost use Rattle.std.specs.Prelude.{◌<◌, length};

use super::both::run_of;
use super::program;
use ia_image::Program;
use std::alloc::Global;
use std::process::Abort;
use tm_core::{Limits, Machine};
use tm_model::Outcome;
use tm_sets::Kind;

/// Runs in the form of those of `both`, each of which has one transaction that is made at once: beside a core that is
/// open, or in place.
const WHOLE: &str = "\
before the other core begins; c7f80f000000a10010000040a3001000000f01d5f4f4; 100 100; 512 512; 0 0 0 0 0 1 1\n\
beside an open core that has loaded; c7f80f000000a10010000040a3001000000f01d5f4f4; 100 100; 512 512; 1 1 0 0 0 0 0 1\n\
beside an open core that has stored; c7f80f000000a10010000040a3001000000f01d5f4f4; \
100 100; 512 512; 1 1 1 1 0 0 0 0 0 1\n\
32 lines, beside an open core; c7f80f000000a10010000040a3001000000f01d5f4f4; 100 100; 32 32; 1 0 0 0 0 0\n\
16 lines; c7f80f000000a10010000040a3001000000f01d5f4f4; 100 100; 16 16; 0 0 0 0 0\n\
what it stored loaded; c7f800000000c7050010000044332211a1001000000f01d5; 100; 512 512; 0 0 0 0 0\n\
what it stored loaded, beside an open core; c7f800000000c7050010000044332211a1001000000f01d5; \
100 100; 512 512; 1 0 0 0 0 0\n\
a part of what it stored loaded; c7f800000000c7050010000044332211a1021000000f01d5; 100; 512 512; 0 0 0 0 0\n\
a load and a store over two lines; c7f800000000a13e100000a33e1000000f01d5; 100; 512 512; 0 0 0 0 0\n\
three INC of memory; c7f800000000ff0500100000ff0500100000ff05041000000f01d5; 100; 512 512; 0 0 0 0 0\n\
nine loads; \
c7f800000000a100100000a100100000a100100000a100100000a100100000a100100000a100100000a100100000a1001000000f01d5; \
100; 512 512; 0 0 0 0 0 0 0 0 0 0 0\n\
31 stores; c7f800000000505050505050505050505050505050505050505050505050505050505050500f01d5; \
100; 512 512; 0 0 0 0 0 0 0 0 0 0 0 0 0 0 0 0 0 0 0 0 0 0 0 0 0 0 0 0 0 0 0 0 0\n\
PUSH and POP; c7f80000000050580f01d5; 100; 512 512; 0 0 0 0 0\n\
nothing between XBEGIN and XEND; c7f8000000000f01d5f4; 100; 512 512; 0 0 0 0 0\n";

/// Runs in which none is.
const PIECEMEAL: &str = "\
room for 15 lines stored; c7f80f000000a10010000040a3001000000f01d5f4f4; 100; 512 15; 0 0 0 0 0\n\
room for 15 lines loaded; c7f80f000000a10010000040a3001000000f01d5f4f4; 100; 15 512; 0 0 0 0 0\n\
room for 31 lines stored, beside an open core; c7f80f000000a10010000040a3001000000f01d5f4f4; \
100 100; 512 31; 1 0 0 0 0 0\n\
room for 31 lines loaded, beside an open core; c7f80f000000a10010000040a3001000000f01d5f4f4; \
100 100; 31 512; 1 0 0 0 0 0\n\
a step of the other core before its XEND; c7f80f000000a10010000040a3001000000f01d5f4f4; 100 100; 512 512; 0 0 0 0 1 0\n\
fewer than five steps left; c7f8000000000f01d5f4; 100; 512 512; 0 0 0\n\
a part of what it stored loaded, beside an open core; c7f800000000c7050010000044332211a1021000000f01d5; \
100 100; 512 512; 1 0 0 0 0 0\n\
nine loads, beside an open core; \
c7f800000000a100100000a100100000a100100000a100100000a100100000a100100000a100100000a100100000a1001000000f01d5; \
100 100; 512 512; 1 0 0 0 0 0 0 0 0 0 0 0\n\
32 stores; c7f80000000050505050505050505050505050505050505050505050505050505050505050500f01d5; \
100; 512 512; 0 0 0 0 0 0 0 0 0 0 0 0 0 0 0 0 0 0 0 0 0 0 0 0 0 0 0 0 0 0 0 0 0 0\n\
a store into the code; c7f800000000c7050010000044332211a3000100000f01d5; 100; 512 512; 0 0 0 0 0\n\
a nested transaction; c7f800000000c7f8000000000f01d50f01d5; 100; 512 512; 0 0 0 0 0\n\
XABORT behind a store; c7f800000000c7050010000044332211c6f8ab; 100; 512 512; 0 0 0 0 0\n";

/// Runs in which three instructions are made at once on registers.
const ON_REGISTERS: &str = "\
to the HLT; 404349f4; 100; 512 512; 0 0 0 0\n\
to the HLT, while the other core is open; 404349f4c7f800000000a1001000000f01d5; 100 104; 512 512; 1 1 0 0 0 0 1\n\
as far as the core's steps go; 404349f4f4; 100 104; 512 512; 0 0 0 1 0\n\
up to a load; 89c3eb0049a100100000f4; 100; 512 512; 0 0 0 0 0\n";

/// How many steps of one core stand one behind the other from this place on.
fn in_a_row(steps: &[u8], place: usize) -> u32 {
    let mut count = 0u32;
    let Some(first) = steps.get(place) else {
        return 0;
    };
    for core in &steps[place..] {
        if core != first {
            return count;
        }
        count = count.saturating_add(1);
    }
    count
}

/// Both show the same memory, and the same of each core.
fn alike(rt: &impl Abort, alloc: Global, one: &Machine, other: &Machine) {
    assert!(rt; one.view() == other.view());
    for core in 0..one.cores() {
        assert_eq!(rt; one.state(core), other.state(core));
        assert!(rt; one.regs(core) == other.regs(core));
        assert!(rt; one.base_regs(core) == other.base_regs(core));
        assert!(rt; one.pending(core) == other.pending(core));
        for kind in [Kind::Read, Kind::Write] {
            let lines = one.sets(alloc, core, kind).expect(rt, "lines");
            let others = other.sets(alloc, core, kind).expect(rt, "lines");
            assert_eq!(rt; lines.as_slice(), others.as_slice());
        }
    }
}

/// How much of a run was made at once.
#[derive(Clone, Copy, PartialEq, Eq, Debug)]
pub struct AtOnce {
    pub transactions: u32,
    pub on_registers: u32,
}

/// Makes as many steps of a core at once as can be, or else one: how many, and the first's outcome where it was one.
fn go_on(machine: &mut Machine, core: u8, most: u32, made: &mut AtOnce) -> (u32, Option<Outcome>)
    requires { core < length machine.old.views }
{
    if let Some(inside) = machine.transact(core, most) {
        made.transactions = made.transactions.saturating_add(1);
        return (inside.saturating_add(2), None);
    }
    match machine.steps_on_registers(core, most) {
        0 => (1, machine.step(core).ok()),
        steps => {
            made.on_registers = made.on_registers.saturating_add(steps);
            (steps, None)
        }
    }
}

/// Makes the steps of a run one by one, and on another machine at once where that can be: how much that was.
pub fn made_at_once(
    rt: &impl Abort,
    alloc: Global,
    program: &Program,
    limits: Limits,
    steps: &[u8],
) -> AtOnce {
    let mut single: Machine = Machine::new(alloc, program, limits).expect(rt, "makes");
    let mut whole: Machine = Machine::new(alloc, program, limits).expect(rt, "makes");
    let mut made = AtOnce {
        transactions: 0,
        on_registers: 0,
    };
    let mut ahead = 0u32;
    for place in 0..steps.len() {
        let core = steps[place];
        let outcome = single.step(core);
        if ahead == 0 && core < whole.cores() {
            let (steps, one) = go_on(&mut whole, core, in_a_row(steps, place), &mut made);
            ahead = steps;
            if one.is_some() {
                assert_eq!(rt; one, outcome.ok());
            }
        }
        ahead = ahead.saturating_sub(1);
        if ahead == 0 {
            alike(rt, alloc, &single, &whole);
        }
    }
    assert_eq!(rt; ahead, 0);
    made
}

#[test]
fn steps_at_once_are_the_steps(rt: HostRuntime) {
    for (table, transactions, on_registers) in [
        (WHOLE, 1, 0),
        (PIECEMEAL, 0, 0),
        (ON_REGISTERS, 0, 3),
    ] {
        let want = AtOnce {
            transactions,
            on_registers,
        };
        for row in table.lines() {
            match run_of(rt.alloc(), row) {
                Some(run) => {
                    let program = program(
                        &rt,
                        rt.alloc(),
                        run.code.as_slice(),
                        run.entries.as_slice(),
                    );
                    let made = made_at_once(
                        &rt,
                        rt.alloc(),
                        &program,
                        run.limits,
                        run.steps.as_slice(),
                    );
                    assert_eq!(&rt; made, want, "{row}");
                }
                None => assert!(&rt; false, "no run: {row}"),
            }
        }
    }
}
