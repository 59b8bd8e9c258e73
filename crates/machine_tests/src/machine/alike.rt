//! Cores that are shown alike by two machines, and cores that are not.

use super::both::{Run, run_of};
use super::program;
use std::alloc::Global;
use std::process::Abort;
use tm_core::Machine;

/// Runs in the form of those of `both`, after each step of which some core is shown otherwise.
const RUNS: &str = "\
a transaction with a load and a store; c7f80f000000a10010000040a3001000000f01d5f4f4; 100 100; 512 512; 0 0 0 0 0 0 1\n\
an instruction of two steps on two cores; ff0500100000f4; 100 100; 512 512; 0 1 0 1 0 1\n\
a core that is condemned; c7f80f000000a10010000040a3001000000f01d5f4f4; 100 100; 512 512; 0 0 1 1 1 1 0 0 1\n";

/// A machine after so many steps of a run.
fn machine_after(rt: &impl Abort, alloc: Global, run: &Run, steps: usize) -> Machine {
    let program = program(rt, alloc, run.code.as_slice(), run.entries.as_slice());
    let mut machine: Machine = Machine::new(alloc, &program, run.limits).expect(rt, "makes");
    for (place, core) in run.steps.as_slice().iter().enumerate() {
        if place < steps {
            assert!(rt; machine.step(*core).is_ok());
        }
    }
    machine
}

/// Whether all cores are shown alike.
fn are_alike(one: &Machine, other: &Machine) -> bool {
    one.cores() == other.cores() && (0..one.cores()).all(|core| one.is_core_alike(other, core))
}

#[test]
fn cores_alike(rt: HostRuntime) {
    for row in RUNS.lines() {
        let Some(run) = run_of(rt.alloc(), row) else {
            assert!(&rt; false, "no run: {row}");
            return;
        };
        let mut before = machine_after(&rt, rt.alloc(), &run, 0);
        for place in 0..run.steps.len() {
            let now = machine_after(&rt, rt.alloc(), &run, place + 1);
            let again = machine_after(&rt, rt.alloc(), &run, place + 1);
            assert!(&rt; are_alike(&now, &again), "{row}");
            assert!(&rt; !are_alike(&before, &now), "{row}");
            before = now;
        }
    }
}
