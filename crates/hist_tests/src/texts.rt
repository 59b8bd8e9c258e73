//! Texts with numbers that no command has, and serial runs of histories that were written by hand. All other lines,
//! schedules and dumps the worked rows of `doc_tests` show.

use crate::increment::INCREMENT;
use ia_image::{LoadFault, Program, load};
use std::alloc::Global;
use text_out::{ToVec, WriteFault};
use tm_hist::{History, SerialFault, serial, write_dump, write_outcome};
use tm_model::Outcome;
use tm_rule::Stop;

// Cores above 63, and addresses that go on at 0.
#[test]
fn texts_are_written(rt: HostRuntime) -> Result<(), WriteFault> {
    let mut out = ToVec::new(Vec::new(rt.alloc()));
    write_outcome(100, &Outcome::Inside, &mut out)?;
    write_outcome(255, &Outcome::Committed, &mut out)?;
    write_dump(b"0123456789abcdefg", 0xffff_fff8, &mut out)?;
    write_dump(&[], 0x1000, &mut out)?;
    let text =
        b"100 inside\n255 committed\nfffffff8 30313233343536373839616263646566\n00000008 67\n";
    assert_eq!(rt; out.bytes.as_slice(), text.as_slice());
    Ok(())
}

// Two cores, each of which runs the increment.
fn increments(alloc: Global) -> Result<Program, LoadFault> {
    load(alloc, &INCREMENT, 0x100, 22, 65536, &[0x100, 0x100])
}

#[test]
fn a_serial_run(rt: HostRuntime) -> Result<(), SerialFault> {
    let Ok(program) = increments(rt.alloc()) else {
        assert!(rt; false, "the program is loaded");
        return Ok(());
    };
    let committed = [
        (0, Outcome::Begun),
        (1, Outcome::Begun),
        (0, Outcome::Inside),
        (0, Outcome::Inside),
        (0, Outcome::Inside),
        (0, Outcome::Committed),
        (1, Outcome::Aborted(6)),
        (1, Outcome::Stopped(Stop::Halt)),
        (1, Outcome::Idle),
    ];
    let end = serial(rt.alloc(), &program, History::new(&committed))?;
    assert!(rt; end.memory().get(0x1000) == Some(&1));
    assert_eq!(rt; end.memory().len(), 65536);
    match (end.regs(0), end.regs(1), end.stop(0), end.stop(1)) {
        (Ok(first), Ok(second), Ok(runs), Ok(stops)) => {
            assert_eq!(rt; first.gpr[0], 1);
            assert_eq!(rt; first.eip, 0x114);
            assert_eq!(rt; second.gpr[0], 6);
            assert_eq!(rt; second.eip, 0x115);
            assert!(rt; runs.is_none());
            assert!(rt; stops == Some(Stop::Halt));
        }
        _ => assert!(rt; false, "both cores are there"),
    }
    assert!(rt; end.regs(2).is_err());
    assert!(rt; end.stop(2).is_err());
    Ok(())
}

// An abort may come at any step of a transaction.
#[test]
fn a_serial_run_of_an_abort(rt: HostRuntime) -> Result<(), SerialFault> {
    let Ok(program) = increments(rt.alloc()) else {
        assert!(rt; false, "the program is loaded");
        return Ok(());
    };
    let allowed = [(0, Outcome::Begun), (0, Outcome::Aborted(0))];
    let end = serial(rt.alloc(), &program, History::new(&allowed))?;
    assert!(rt; end.regs(0).is_ok());
    Ok(())
}

#[test]
fn no_serial_run(rt: HostRuntime) {
    let Ok(program) = increments(rt.alloc()) else {
        assert!(rt; false, "the program is loaded");
        return;
    };
    let refused = [
        ([(0, Outcome::Committed)].as_slice(), 0),
        ([(0, Outcome::Begun), (0, Outcome::Plain)].as_slice(), 1),
        (
            [
                (0, Outcome::Begun),
                (0, Outcome::Inside),
                (0, Outcome::Committed),
            ]
            .as_slice(),
            2,
        ),
        ([(2, Outcome::Begun)].as_slice(), 0),
    ];
    for (history, index) in &refused {
        match serial(rt.alloc(), &program, History::new(history)) {
            Ok(_) => assert!(rt; false, "no run from {index} on"),
            Err(fault) => {
                assert!(rt; fault == SerialFault::NotARun(*index), "at {index}");
                assert_eq!(rt; fault.code(), 53);
            }
        }
    }
}
