//! Whether a program's stores are ever pending: [`finds_pending`].
//!
//! Where a store is made outside of transactions, by an instruction that does not wait (docs/MACHINE.md, "Stores that
//! are pending"), it is pending where a core has room for it. One run is made to see it, in which the cores step in
//! turn: where it finds none, another one may.

ghost use Rattle.std.specs.Prelude.{IsTrue};
ghost use Rattle.tm_hunt.specs.Delays.{LeavesSome};

use crate::pending::pending_count;
use crate::trial::Trial;
use crate::walker::machine_of;
use std::alloc::Global;
use tm_core::Limits;
use tm_model::Outcome;

/// Whether a store of the program is pending somewhere in the run in which its cores step in turn, with room for one
/// store of a core; not, where there is no memory for such a machine.
pub fn finds_pending(alloc: Global, trial: &Trial<'_>) -> bool
    ensures { IsTrue result → LeavesSome trial.now }
{
    let roomy = Trial {
        program: trial.program,
        limits: Limits {
            read_lines: trial.limits.read_lines,
            write_lines: trial.limits.write_lines,
            stores: 1,
        },
        most: trial.most,
        checks: trial.checks,
    };
    let Ok(mut machine) = machine_of(alloc, &roomy) else {
        return false;
    };
    let cores = machine.cores();
    let mut core = 0;
    let mut idle = 0;
    'steps: for _ in 0..trial.most {
        let Ok(outcome) = machine.step(core) else {
            return false;
        };
        if pending_count(&machine, core) > 0 {
            return true;
        }
        idle = idle_behind(idle, outcome);
        if idle >= cores {
            return false;
        }
        core = core_behind(core, cores);
    }
    false
}

// How many of the last steps did nothing, where so many did before this outcome.
fn idle_behind(idle: u8, outcome: Outcome) -> u8 {
    match outcome {
        Outcome::Idle => idle.saturating_add(1),
        _ => 0,
    }
}

// The core behind one of so many.
fn core_behind(core: u8, cores: u8) -> u8 {
    let next = core.saturating_add(1);
    if next < cores { next } else { 0 }
}
