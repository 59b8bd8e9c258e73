//! What calls do where memory is refused: each refusal is the call's own, leaves all as it was, and the same call then
//! does what it does with ample memory. `scripts/refuse-memory` refuses each request of these tests in turn; with ample
//! memory nothing is refused, and they show what the calls give.

use crate::increment::INCREMENT;
use ia_image::{ImageFault, LoadFault, Program, load, read_image};
use std::alloc::Global;
use std::process::Abort;
use tm_core::{Limits, Machine, MachineFault, RunFault};
use tm_hist::{Board, BoardFault, History, SerialFault, serial_with};
use tm_model::Outcome::{Begun, Inside};
use tm_model::{CoreState, Pick};
use tm_schedule::{ScheduleFault, read_schedule, read_steps};
use tm_sets::{Directory, Kind, PlainSets, Sets};

const LIMITS: Limits = Limits {
    read_lines: 16,
    write_lines: 16,
    stores: 0,
};

/// The program, on two cores.
fn program(rt: &impl Abort, alloc: Global) -> Program {
    let entries = [0x100, 0x100];
    match load(alloc, &INCREMENT, 0x100, 22, 16384, &entries) {
        Ok(program) => program,
        Err(fault) => {
            assert_eq!(rt; fault, LoadFault::NoMemory);
            load(alloc, &INCREMENT, 0x100, 22, 16384, &entries).expect(rt, "loads when asked again")
        }
    }
}

fn machine(rt: &impl Abort, alloc: Global) -> Machine {
    let program = program(rt, alloc);
    match Machine::new(alloc, &program, LIMITS) {
        Ok(machine) => machine,
        Err(fault) => {
            assert!(rt; matches!(fault, MachineFault::NoMemory(_)));
            assert_eq!(rt; fault.code(), 41);
            Machine::new(alloc, &program, LIMITS).expect(rt, "is made when asked again")
        }
    }
}

fn board(rt: &impl Abort, alloc: Global) -> Board {
    let program = program(rt, alloc);
    match Board::new(alloc, &program, LIMITS, 100) {
        Ok(board) => board,
        Err(fault) => {
            assert!(rt;
                matches!(
                    (fault, fault.code()),
                    (BoardFault::NoMachine(_), 41) | (BoardFault::NoMemory(_), 51)
                )
            );
            Board::new(alloc, &program, LIMITS, 100).expect(rt, "is made when asked again")
        }
    }
}

#[test]
fn a_program_is_copied(rt: HostRuntime) {
    let program = program(&rt, rt.alloc());
    let copy = match program.copy(rt.alloc()) {
        Ok(copy) => copy,
        Err(fault) => {
            assert_eq!(rt; fault, LoadFault::NoMemory);
            program
                .copy(rt.alloc())
                .expect(&rt, "is copied when asked again")
        }
    };
    assert!(rt; copy.bytes() == INCREMENT.as_slice());
    assert_eq!(rt; copy.entry(1), Some(0x100));
}

#[test]
fn an_image_is_read(rt: HostRuntime) {
    let text = b"image 1 100 2\nebfe\n00\n".as_slice();
    let image = match read_image(rt.alloc(), text) {
        Ok(image) => image,
        Err(fault) => {
            assert_eq!(rt; fault, ImageFault::NoMemory);
            read_image(rt.alloc(), text).expect(&rt, "is read when asked again")
        }
    };
    assert!(rt; image.bytes.as_slice() == b"\xeb\xfe\x00".as_slice());
}

#[test]
fn schedules_are_read(rt: HostRuntime) {
    let text = b"schedule 2\n0*40 1*2\n".as_slice();
    let picks = match read_schedule(rt.alloc(), text) {
        Ok(picks) => picks,
        Err(fault) => {
            assert_eq!(rt; fault, ScheduleFault::NoMemory);
            read_schedule(rt.alloc(), text).expect(&rt, "is read when asked again")
        }
    };
    assert_eq!(rt; picks.as_slice().len(), 42);
    let steps = match read_steps(rt.alloc(), b"0 1 0") {
        Ok(steps) => steps,
        Err(fault) => {
            assert_eq!(rt; fault, ScheduleFault::NoMemory);
            read_steps(rt.alloc(), b"0 1 0").expect(&rt, "is read when asked again")
        }
    };
    let first = Pick {
        core: 0,
        event: None,
    };
    let listed = [first, Pick { core: 1, ..first }, first];
    assert!(rt; steps.as_slice() == listed.as_slice());
}

#[test]
fn a_list_of_steps_runs(rt: HostRuntime) {
    let mut machine = machine(&rt, rt.alloc());
    let steps = [0, 0, 1];
    let outcomes = match machine.run(rt.alloc(), &steps) {
        Ok(outcomes) => outcomes,
        Err(fault) => {
            assert_eq!(rt; fault, RunFault::NoMemory);
            for core in 0..2 {
                assert!(rt; machine.regs(core).is_ok_and(|regs| regs.eip == 0x100));
                assert_eq!(rt; machine.regs(core), machine.base_regs(core));
                assert_eq!(rt; machine.state(core), Ok(CoreState::Running));
            }
            machine
                .run(rt.alloc(), &steps)
                .expect(&rt, "runs when asked again")
        }
    };
    assert!(rt; outcomes.as_slice() == [Begun, Inside, Begun].as_slice());
    let lines = match machine.sets(rt.alloc(), 0, Kind::Read) {
        Ok(lines) => lines,
        Err(fault) => {
            assert_eq!(rt; fault, RunFault::NoMemory);
            machine
                .sets(rt.alloc(), 0, Kind::Read)
                .expect(&rt, "is listed when asked again")
        }
    };
    assert!(rt; lines.as_slice() == [0x40].as_slice());
    assert_eq!(rt; machine.step(0), Ok(Inside));
}

#[test]
fn a_board_replays(rt: HostRuntime) {
    let mut board = board(&rt, rt.alloc());
    for core in [0, 0, 1, 0] {
        assert!(rt; board.step(core).is_ok());
    }
    let end = match board.replay(rt.alloc()) {
        Ok(end) => end,
        Err(fault) => {
            assert_eq!(rt; fault, SerialFault::NoMemory);
            board
                .replay(rt.alloc())
                .expect(&rt, "replays when asked again")
        }
    };
    assert!(rt; end.memory() == board.machine().view());
    assert_eq!(rt; board.made(), 4);
}

#[test]
fn a_run_has_store_buffers(rt: HostRuntime) {
    let program = program(&rt, rt.alloc());
    let steps = [(0, Begun), (1, Begun), (0, Inside)];
    let history = History::new(&steps);
    let end = match serial_with(rt.alloc(), &program, 4, history) {
        Ok(end) => end,
        Err(fault) => {
            assert_eq!(rt; fault, SerialFault::NoMemory);
            serial_with(rt.alloc(), &program, 4, history).expect(&rt, "runs when asked again")
        }
    };
    for core in 0..2 {
        assert!(rt; end.pending(core).is_ok_and(|stores| stores.is_empty()));
    }
    assert!(rt; end.pending(2).is_err());
}

#[test]
fn plain_sets_are_listed(rt: HostRuntime) {
    let mut sets = match PlainSets::new(rt.alloc(), 2, 8, 4, 4) {
        Ok(sets) => sets,
        Err(_) => PlainSets::new(rt.alloc(), 2, 8, 4, 4).expect(&rt, "is made when asked again"),
    };
    assert!(rt; sets.add(1, 7, Kind::Write).is_ok());
    assert!(rt; sets.add(1, 2, Kind::Write).is_ok());
    let lines = match sets.listing(rt.alloc(), 1, Kind::Write) {
        Ok(lines) => lines,
        Err(_) => {
            assert_eq!(rt;
                (sets.count(1, Kind::Write), sets.count(1, Kind::Read)),
                (2, 0)
            );
            sets.listing(rt.alloc(), 1, Kind::Write)
                .expect(&rt, "is listed when asked again")
        }
    };
    assert!(rt; lines.as_slice() == [2, 7].as_slice());
}

#[test]
fn a_directory_is_listed(rt: HostRuntime) {
    let mut sets = match Directory::new(rt.alloc(), 2, 8, 4, 4) {
        Ok(sets) => sets,
        Err(_) => Directory::new(rt.alloc(), 2, 8, 4, 4).expect(&rt, "is made when asked again"),
    };
    assert!(rt; sets.add(1, 7, Kind::Write).is_ok());
    assert!(rt; sets.add(1, 2, Kind::Write).is_ok());
    let lines = match sets.listing(rt.alloc(), 1, Kind::Write) {
        Ok(lines) => lines,
        Err(_) => {
            assert_eq!(rt;
                (sets.count(1, Kind::Write), sets.count(1, Kind::Read)),
                (2, 0)
            );
            sets.listing(rt.alloc(), 1, Kind::Write)
                .expect(&rt, "is listed when asked again")
        }
    };
    assert!(rt; lines.as_slice() == [2, 7].as_slice());
}
