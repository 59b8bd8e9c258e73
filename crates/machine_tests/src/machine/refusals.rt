//! Cores that there are not, which a command refuses before it asks for them, and the numbers of faults.

use super::program;
use tm_core::{Limits, Machine, MachineFault, NoSuchCore, RunFault};
use tm_model::{CoreState, Pick};
use tm_sets::Kind;

const LIMITS: Limits = Limits {
    read_lines: 512,
    write_lines: 512,
    stores: 0,
};

#[test]
fn cores_that_there_are_not(rt: HostRuntime) {
    // HLT.
    let program = program(&rt, rt.alloc(), &[0xf4], &[0x100]);
    let mut machine: Machine = Machine::new(rt.alloc(), &program, LIMITS).expect(&rt, "makes");
    assert_eq!(rt; machine.cores(), 1);
    assert_eq!(rt; machine.step(1), Err(NoSuchCore));
    assert!(rt; matches!(machine.run(rt.alloc(), &[0, 1]), Err(RunFault::NoSuchCore)));
    assert!(rt; machine.regs(1).is_err());
    assert!(rt; machine.base_regs(1).is_err());
    assert_eq!(rt; machine.kept(1), Err(NoSuchCore));
    assert_eq!(rt; machine.kept(0), Ok(0));
    assert_eq!(rt; machine.state(1), Err(NoSuchCore));
    assert!(rt;
        matches!(
            machine.sets(rt.alloc(), 1, Kind::Read),
            Err(RunFault::NoSuchCore)
        )
    );
    assert!(rt; machine.preview(1).is_err());
    let preview = machine.preview(0).expect(&rt, "previews");
    assert_eq!(rt; machine.hit_by(&preview, 0), Ok(None));
    assert_eq!(rt; machine.hit_by(&preview, 1), Err(NoSuchCore));
    assert_eq!(rt; machine.counts(1), Err(NoSuchCore));
    assert_eq!(rt; machine.state(0), Ok(CoreState::Running));
    assert_eq!(rt; MachineFault::BadLimits.code(), 40);
    assert_eq!(rt;
        (
            NoSuchCore.code(),
            RunFault::NoSuchCore.code(),
            RunFault::NoMemory.code()
        ),
        (42, 42, 43)
    );
}

#[test]
fn stores_of_cores_that_there_are_not(rt: HostRuntime) {
    let program = program(&rt, rt.alloc(), &[0xf4], &[0x100]);
    let mut machine: Machine = Machine::new(rt.alloc(), &program, LIMITS).expect(&rt, "makes");
    assert_eq!(rt; machine.hit_by_drain(0, 0), Ok(None));
    assert_eq!(rt; machine.hit_by_drain(0, 1), Err(NoSuchCore));
    assert_eq!(rt; machine.hit_by_drain(1, 0), Err(NoSuchCore));
    let pick = Pick {
        core: 1,
        event: None,
    };
    assert_eq!(rt; machine.take(pick), Err(NoSuchCore));
    assert!(rt; machine.pending(0) == Ok([].as_slice()));
    assert!(rt; machine.pending(1) == Err(NoSuchCore));
}

#[test]
fn stores_that_there_cannot_be(rt: HostRuntime) {
    let program = program(&rt, rt.alloc(), &[0xf4], &[0x100]);
    for (stores, refused) in [(0, false), (64, false), (65, true), (u32::MAX, true)] {
        let limits = Limits { stores, ..LIMITS };
        match Machine::new(rt.alloc(), &program, limits) {
            Ok(machine) => {
                assert!(&rt; !refused, "{stores} stores");
                assert_eq!(&rt; u32::from(machine.stores()), stores);
                if machine.stores() == 0 {
                    machine.nothing_pending();
                }
            }
            Err(fault) => assert!(&rt;
                refused && fault == MachineFault::BadLimits,
                "{stores} stores"
            ),
        }
    }
}
