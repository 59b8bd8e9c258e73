//! A machine with store buffers: what its calls answer where stores are pending.

use super::program;
use ia_exec::Store;
use ia_word::Width;
use std::alloc::Global;
use std::process::Abort;
use tm_core::{Buffering, Limits, Machine, NoSuchCore, Wait};
use tm_model::Outcome::{Aborted, Begun, Drained, Idle, Inside, Plain, Stopped};
use tm_model::{CoreState, Event, Hit, Outcome, Pick};
use tm_rule::Stop;
use tm_sets::Kind;

/// Core 0 from 100h on: mov dword [1000h], 1; mov eax, [1040h]; mfence; hlt. Core 1 from 113h on: a transaction that
/// loads [1000h], adds one and stores it, with its fallback at the second of the two HLT behind it.
const CODE: &[u8] = b"\xc7\x05\x00\x10\x00\x00\x01\x00\x00\x00\xa1\x40\x10\x00\x00\x0f\xae\xf0\xf4\
    \xc7\xf8\x0f\x00\x00\x00\xa1\x00\x10\x00\x00\x40\xa3\x00\x10\x00\x00\x0f\x01\xd5\xf4\xf4";

/// Twice mov dword [1000h], 1; hlt.
const TWICE: &[u8] =
    b"\xc7\x05\x00\x10\x00\x00\x01\x00\x00\x00\xc7\x05\x00\x10\x00\x00\x01\x00\x00\x00\xf4";

/// The store of core 0.
const STORE: Store = Store {
    addr: 0x1000,
    width: Width::D,
    value: 1,
};

fn machine_of(rt: &impl Abort, alloc: Global, stores: u32) -> Machine {
    machine_with(rt, alloc, CODE, &[0x100, 0x113], stores)
}

fn machine_with(
    rt: &impl Abort,
    alloc: Global,
    code: &[u8],
    entries: &[u32],
    stores: u32,
) -> Machine {
    let limits = Limits {
        read_lines: 16,
        write_lines: 16,
        stores,
    };
    let program = program(rt, alloc, code, entries);
    Machine::new(alloc, &program, limits).expect(rt, "makes")
}

/// A step of a core, under a drain or under nothing.
fn picked(core: u8, drains: bool) -> Pick {
    let event = if drains { Some(Event::Drain) } else { None };
    Pick { core, event }
}

/// The byte at 1000h: in memory, and as each of the two cores sees it.
fn bytes_of(machine: &Machine) -> Option<(u8, u8, u8)> {
    let byte = machine.view().get(0x1000).copied()?;
    let first = machine.seen(0, 0x1000).ok()?;
    let second = machine.seen(1, 0x1000).ok()?;
    Some((byte, first, second))
}

/// Whom the next step of core 0 hits, and whom its drain.
fn hits_of(machine: &Machine) -> Option<(Option<Hit>, Option<Hit>)> {
    let preview = machine.preview(0).ok()?;
    let made = machine.hit_by(&preview, 1).ok()?;
    let drained = machine.hit_by_drain(0, 1).ok()?;
    Some((made, drained))
}

#[test]
fn a_pending_store(rt: HostRuntime) {
    let mut machine = machine_of(&rt, rt.alloc(), 2);
    assert_eq!(rt; machine.stores(), 2);
    assert_eq!(rt; machine.take(picked(0, false)), Ok(Plain));
    assert!(rt; machine.pending(0) == Ok([STORE].as_slice()));
    assert!(rt; machine.pending(1) == Ok([].as_slice()));
    assert_eq!(rt; bytes_of(&machine), Some((0, 1, 0)));
    // The transaction of core 1 loads what is not there yet: only the drain hits it.
    assert_eq!(rt; machine.take(picked(1, false)), Ok(Begun));
    assert_eq!(rt; machine.take(picked(1, true)), Ok(Inside));
    let hit = Hit {
        line: 0x40,
        kind: Kind::Write,
    };
    assert_eq!(rt; hits_of(&machine), Some((None, Some(hit))));
    assert_eq!(rt; machine.take(picked(0, true)), Ok(Drained));
    assert_eq!(rt; machine.state(1), Ok(CoreState::Condemned(1)));
    assert_eq!(rt; bytes_of(&machine), Some((1, 1, 1)));
    assert_eq!(rt; hits_of(&machine), Some((None, None)));
    assert_eq!(rt; machine.step(1), Ok(Aborted(6)));
    // A drain of nothing is the step.
    assert_eq!(rt; machine.step_under(0, Event::Drain), Ok(Plain));
    assert_eq!(rt;
        machine.step_under(1, Event::Drain),
        Ok(Stopped(Stop::Halt))
    );
}

/// The outcomes of so many steps of core 0.
fn outcomes(rt: &impl Abort, alloc: Global, stores: u32) -> Vec<Outcome> {
    let mut machine = machine_of(rt, alloc, stores);
    machine.run(alloc, &[0; 6]).expect(rt, "runs")
}

#[test]
fn a_fence_waits(rt: HostRuntime) {
    let at_once = outcomes(&rt, rt.alloc(), 0);
    let buffered = outcomes(&rt, rt.alloc(), 1);
    let halted = Stopped(Stop::Halt);
    assert_eq!(rt;
        at_once.as_slice(),
        [Plain, Plain, Plain, halted, Idle, Idle].as_slice()
    );
    assert_eq!(rt;
        buffered.as_slice(),
        [Plain, Plain, Drained, Plain, halted, Idle].as_slice()
    );
}

// A machine that is taken back has no store pending, and goes as before.
#[test]
fn a_machine_is_taken_back(rt: HostRuntime) {
    let alloc = rt.alloc();
    let program = program(&rt, alloc, CODE, &[0x100, 0x113]);
    let mut machine = machine_of(&rt, alloc, 1);
    assert_eq!(rt; machine.step(0), Ok(Plain));
    let as_many = machine.cores() == program.cores();
    if as_many && machine.view().len() == program.mem_size() as usize {
        machine.reopen(&program);
    }
    assert!(rt; machine.pending(0) == Ok([].as_slice()));
    assert_eq!(rt; machine.steps_alone(0, 6), Ok(6));
    assert_eq!(rt; machine.state(0), Ok(CoreState::Stopped(Stop::Halt)));
    assert_eq!(rt; bytes_of(&machine), Some((1, 1, 1)));
}

// What a step does with the stores of its core is told before it.
#[test]
fn a_step_told_ahead(rt: HostRuntime) {
    let mut machine = machine_with(&rt, rt.alloc(), TWICE, &[0x100], 1);
    for (told, outcome) in [
        (Buffering::Pends, Plain),
        (Buffering::Waits(Wait::ForRoom), Drained),
        (Buffering::Pends, Plain),
        (Buffering::Waits(Wait::ForNone), Drained),
        (Buffering::Goes, Stopped(Stop::Halt)),
        (Buffering::Goes, Idle),
    ] {
        assert_eq!(&rt; machine.ahead(0), Ok(told));
        assert_eq!(&rt; machine.step(0), Ok(outcome));
    }
    assert_eq!(rt; machine.ahead(1), Err(NoSuchCore));
    // Where none may be pending, each step goes.
    let at_once = machine_with(&rt, rt.alloc(), TWICE, &[0x100], 0);
    assert_eq!(rt; at_once.ahead(0), Ok(Buffering::Goes));
    assert_eq!(rt; at_once.ahead(1), Err(NoSuchCore));
}

#[test]
fn stores_that_are_pending_alike(rt: HostRuntime) {
    let mut one = machine_of(&rt, rt.alloc(), 2);
    let mut other = machine_of(&rt, rt.alloc(), 1);
    assert!(rt; one.is_pending_alike(&other, 0));
    assert_eq!(rt; one.step(0), Ok(Plain));
    assert!(rt; !one.is_pending_alike(&other, 0));
    assert!(rt; one.is_pending_alike(&other, 1));
    assert!(rt; one.is_pending_alike(&other, 2));
    assert_eq!(rt; other.step(0), Ok(Plain));
    assert!(rt; one.is_pending_alike(&other, 0));
}
