//! Steps on a board, written by hand. Code lies from 100h on, in a memory of 65,536 bytes.

use crate::increment::{INCREMENT, LIMITS};
use ia_image::{Program, load};
use std::alloc::Global;
use std::process::Abort;
use tm_core::Limits;
use tm_hist::{Board, BoardFault, History, MOST_STEPS, StepFault};
use tm_model::Outcome;
use tm_model::Outcome::{Aborted, Begun, Committed, Inside, Stopped};
use tm_rule::Stop;

fn program(rt: &impl Abort, alloc: Global, entries: &[u32]) -> Program {
    load(alloc, &INCREMENT, 0x100, 22, 65536, entries).expect(rt, "the program is loaded")
}

fn board(rt: &impl Abort, alloc: Global, entries: &[u32], limit: u64) -> Board {
    Board::new(alloc, &program(rt, alloc, entries), LIMITS, limit).expect(rt, "the board is made")
}

#[test]
fn the_loser_aborts(rt: HostRuntime) {
    let mut board = board(&rt, rt.alloc(), &[0x100, 0x100], 100);
    let wanted = [
        (0, Begun),
        (0, Inside),
        (1, Begun),
        (1, Inside),
        (0, Inside),
        (0, Inside),
        (0, Committed),
        (1, Aborted(6)),
    ];
    for (core, outcome) in &wanted {
        assert_eq!(rt; board.step(*core), Ok(*outcome));
    }
    assert_eq!(rt; (board.made(), board.limit(), board.cores()), (8, 100, 2));
    for index in 0..wanted.len() {
        assert_eq!(rt;
            board.history().get(index),
            History::new(&wanted).get(index)
        );
    }
    assert_eq!(rt; board.history().get(8), None);
    assert_eq!(rt; board.history().len(), 8);
    assert!(rt; !board.history().is_empty());
    board.is_run();
    let end = board.replay(rt.alloc()).expect(&rt, "a run is replayed");
    assert!(rt; end.memory() == board.machine().view());
    for core in 0..2 {
        assert_eq!(rt; end.regs(core), board.machine().base_regs(core));
        assert_eq!(rt; end.stop(core), Ok(None));
    }
    assert_eq!(rt; board.program().entry(1), Some(0x100));
    assert_eq!(rt; board.limits(), LIMITS);
}

#[test]
fn a_board_restarts(rt: HostRuntime) {
    let mut restarted = board(&rt, rt.alloc(), &[0x100, 0x100], 8);
    let cores = [0, 0, 1, 1, 0, 0, 0, 1];
    for core in &cores {
        assert!(rt; restarted.step(*core).is_ok());
    }
    assert!(rt; restarted.is_full());
    restarted.restart();
    let mut new = board(&rt, rt.alloc(), &[0x100, 0x100], 8);
    assert!(rt; restarted.history().is_empty());
    assert_eq!(rt; restarted.limit(), 8);
    assert_eq!(rt; restarted.limits(), LIMITS);
    assert!(rt; restarted.machine().view() == new.machine().view());
    for core in &cores {
        assert_eq!(rt; restarted.step(*core), new.step(*core));
    }
    assert!(rt; restarted.is_full());
    assert!(rt; restarted.machine().view() == new.machine().view());
    assert!(rt; restarted.replay(rt.alloc()).is_ok());
}

#[test]
fn a_full_history(rt: HostRuntime) {
    let mut board = board(&rt, rt.alloc(), &[0x114, 0x100], 2);
    assert!(rt; !board.is_stopped(0));
    assert_eq!(rt; board.step(0), Ok(Stopped(Stop::Halt)));
    assert!(rt; board.is_stopped(0));
    assert!(rt; !board.is_stopped(1));
    assert!(rt; !board.is_stopped(2));
    assert!(rt; !board.is_full());
    assert_eq!(rt; board.step(2), Err(StepFault::NoSuchCore));
    assert_eq!(rt; board.step(0), Ok(Outcome::Idle));
    assert!(rt; board.is_full());
    assert_eq!(rt; board.step(2), Err(StepFault::NoSuchCore));
    assert_eq!(rt; board.step(1), Err(StepFault::LimitReached));
    assert_eq!(rt; board.made(), 2);
    assert_eq!(rt;
        (StepFault::NoSuchCore.code(), StepFault::LimitReached.code()),
        (42, 50)
    );
    let end = board.replay(rt.alloc()).expect(&rt, "a run is replayed");
    assert_eq!(rt; end.stop(0), Ok(Some(Stop::Halt)));
}

#[test]
fn limits_of_a_board(rt: HostRuntime) {
    let program = program(&rt, rt.alloc(), &[0x100]);
    let none = Limits {
        read_lines: 0,
        write_lines: 1,
        stores: 0,
    };
    for limit in [0, MOST_STEPS + 1, u64::MAX] {
        assert!(rt;
            matches!(
                Board::new(rt.alloc(), &program, none, limit),
                Err(BoardFault::BadLimit)
            )
        );
    }
    let too_many = Limits {
        stores: 65,
        ..LIMITS
    };
    for limits in [none, too_many] {
        assert!(rt;
            matches!(
                Board::new(rt.alloc(), &program, limits, 1),
                Err(BoardFault::BadLimits)
            )
        );
    }
    let stores = Limits {
        stores: 64,
        ..LIMITS
    };
    assert!(rt; Board::new(rt.alloc(), &program, stores, 1).is_ok());
    let most = Board::new(rt.alloc(), &program, LIMITS, MOST_STEPS).expect(&rt, "the most steps");
    assert_eq!(rt; most.limit(), 16_777_216);
    assert!(rt; most.history().is_empty());
    assert_eq!(rt;
        (BoardFault::BadLimit.code(), BoardFault::BadLimits.code()),
        (55, 40)
    );
}

// Two NOP and a HLT.
#[test]
fn steps_are_made_until_the_core_stops(rt: HostRuntime) {
    let alloc = rt.alloc();
    let program = load(alloc, &[0x90, 0x90, 0xf4], 0x100, 3, 8192, &[0x100]);
    let program = program.expect(&rt, "it is loaded");
    let board = Board::new(alloc, &program, LIMITS, 10);
    let mut board = board.expect(&rt, "the board is made");
    assert!(rt; board.cores() > 0);
    assert_eq!(rt; board.steps(0, 2), 2);
    assert_eq!(rt; board.steps(0, 9), 1);
    assert_eq!(rt; board.steps(0, 9), 0);
}
