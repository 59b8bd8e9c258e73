//! What the machine shows of a core before its step, as far as the step may change it.
//!
//! [`Before::of`] is called just before the step, and asks for the lines of the sets, which alone need memory, for
//! what is said of the step (`tm_why`), and for the stores that are pending. The bytes that a transaction keeps for
//! itself are not among it: they come to `difference` as a list of addresses.

ghost use Rattle.std.specs.Prelude.{IfOk};
ghost use Rattle.tm_page.specs.Before.{IsBefore};

use crate::lines::lines_of;
use ia_exec::Store;
use ia_regs::Regs;
use std::alloc::Global;
use tm_core::{Machine, RunFault};
use tm_model::Reach;
use tm_sets::Kind;
use tm_why::Asked;

/// What the machine shows of a core before its step, and what it says of that step.
#[derive(Drop)]
pub struct Before {
    /// Whom the step hits, and why it is an abort.
    pub asked: Asked,
    /// The registers of the core.
    pub regs: Regs,
    /// Which bytes the step reaches.
    pub reach: Reach,
    /// The lines of its read set.
    pub reads: Vec<u32>,
    /// The lines of its write set.
    pub writes: Vec<u32>,
    /// How many stores of it are pending.
    pub pending: usize,
    /// The oldest of these.
    pub oldest: Option<Store>,
}

impl Before {
    /// What the machine shows of this core. `NoSuchCore` (42), or `NoMemory` (43).
    pub fn of(alloc: Global, machine: &Machine, core: u8) -> Result<Before, RunFault>
        ensures { IfOk result (IsBefore machine.now core) }
    {
        if core >= machine.cores() {
            return Err(RunFault::NoSuchCore);
        }
        let reads = lines_of(alloc, machine, core, Kind::Read)?;
        let writes = lines_of(alloc, machine, core, Kind::Write)?;
        let asked = Asked::of(machine, core).unwrap();
        let stores = machine.pending(core).unwrap();
        Ok(Before {
            asked,
            regs: machine.regs(core).unwrap(),
            reach: asked.reach,
            reads,
            writes,
            pending: stores.len(),
            oldest: stores.first().copied(),
        })
    }
}
