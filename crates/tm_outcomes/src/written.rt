//! The lines of memory that steps store to.
//!
//! [`Written::note`] is called before each step that is followed, as only then the machine tells what the step can
//! store to, by itself or as a drain; unseen steps store nothing. A line stays on the list for the whole search: on
//! these lines alone machines are compared, copied and taken back (`place`).

ghost use Rattle.std.specs.Prelude.{◌≡◌, ◌↔◌, ◌/◌, ◌<◌, ◌^◌, ℕ, [], Contains, IfOk, OnOk, false, length, true};
ghost use Rattle.ia_image.specs.Program.{opening_memory as memory_of};
ghost use Rattle.tm_core.specs.Theorem.{StandsFor, machine_setting, pending_at, view_at};
ghost use Rattle.tm_model.specs.Access.{loaded_addresses};
ghost use Rattle.tm_model.specs.Conflicts.{addresses_drained};
ghost use Rattle.tm_outcomes.specs.Places.{is_open};
ghost use Rattle.tm_outcomes.specs.Schedules.{Situation};
ghost use Rattle.tm_outcomes.specs.Written.{HasMore, KeepsNoted, StoresOn};

use crate::trial::Trial;
use ia_addr::Access;
use std::alloc::{AllocError, Global};
use tm_core::{Machine, opening_memory};
use tm_model::CoreState;
use tm_sets::Kind;

/// Memory before the first step, and the lines of 64 bytes that steps of a search store to. Outside of these lines
/// memory is at each state of the search what it was before the first step.
#[derive(Drop)]
pub struct Written {
    /// Memory before the first step.
    pub opening: Vec<u8>,
    /// The lines, each once, in the order in which they were met.
    pub lines: Vec<u32>,
}

// The line of an address.
fn line_at(address: u64) -> u32
    requires { address < 2 ^ 33 }
    ensures { result ≡ address / 64 }
{
    (address / 64) as u32
}

impl Written {
    /// With no line.
    pub fn new(alloc: Global, trial: &Trial<'_>) -> Result<Written, AllocError>
        ensures { IfOk result (λ written. written.opening.items ≡ memory_of trial.now.program.now) }
    {
        let opening = opening_memory(alloc, trial.program)?;
        Ok(Written {
            opening,
            lines: Vec::new(alloc),
        })
    }

    /// Takes up the lines that the next step of a core can store to, before it is made: a drain's as well.
    #[tactic(auto, using(crate::proofs::Noting::noting))]
    pub fn note(&mut self, alloc: Global, machine: &Machine, core: u8) -> Result<(), AllocError>
        requires { core < length machine.now.views }
        ensures keeps { KeepsNoted self.old self.new }
        ensures grown { OnOk result (HasMore self.old.lines.items self.new.lines.items) }
        ensures noted { OnOk result ((now : Situation) → StandsFor machine.now now.state now.doomed →
            StoresOn (machine_setting machine.now) self.new.lines.items now core) }
    {
        self.add_drained(machine, core)?;
        self.add_made(alloc, machine, core)?;
        Ok(())
    }

    // The lines of a core's oldest store that is pending, if any.
    #[tactic(auto, using(crate::proofs::Noting::noting))]
    fn add_drained(&mut self, machine: &Machine, core: u8) -> Result<(), AllocError>
        requires { core < length machine.now.views }
        ensures keeps { KeepsNoted self.old self.new }
        ensures grown { OnOk result (HasMore self.old.lines.items self.new.lines.items) }
        ensures all { OnOk result ((address : ℕ) →
            Contains (addresses_drained (pending_at machine.now core)) address →
            Contains self.new.lines.items (address / 64)) }
    {
        let Ok(stores) = machine.pending(core) else {
            unreachable!();
        };
        let Some((oldest, _younger)) = stores.split_first() else {
            return Ok(());
        };
        let access = Access {
            addr: oldest.addr,
            width: oldest.width,
        };
        self.add_access(Some(access))?;
        Ok(())
    }

    // The lines that a step stores to where no store is pending.
    fn add_made(&mut self, alloc: Global, machine: &Machine, core: u8) -> Result<(), AllocError>
        requires { core < length machine.now.views }
        ensures keeps { KeepsNoted self.old self.new }
        ensures grown { OnOk result (HasMore self.old.lines.items self.new.lines.items) }
        ensures noted { OnOk result ((now : Situation) → StandsFor machine.now now.state now.doomed →
            now.state.pending core ≡ [] →
            StoresOn (machine_setting machine.now) self.new.lines.items now core) }
    {
        if is_open(machine, core) {
            self.add_written(alloc, machine, core)
        } else {
            self.add_reached(machine, core)
        }
    }

    // The lines that a core's open transaction has stored to, all of which a commit writes.
    #[tactic(auto, using(crate::proofs::Noting::noting))]
    fn add_written(&mut self, alloc: Global, machine: &Machine, core: u8) -> Result<(), AllocError>
        requires core { core < length machine.now.views }
        requires open { is_open (view_at machine.now core).mode ≡ true }
        ensures keeps { KeepsNoted self.old self.new }
        ensures grown { OnOk result (HasMore self.old.lines.items self.new.lines.items) }
        ensures noted { OnOk result ((now : Situation) → StandsFor machine.now now.state now.doomed →
            now.state.pending core ≡ [] →
            StoresOn (machine_setting machine.now) self.new.lines.items now core) }
    {
        let Ok(counts) = machine.counts(core) else {
            unreachable!();
        };
        // The list takes time for the lines of all cores.
        if counts.writes == 0 {
            return Ok(());
        }
        let Ok(lines) = machine.sets(alloc, core, Kind::Write) else {
            return Err(AllocError);
        };
        self.add_all(lines.as_slice())?;
        Ok(())
    }

    // The lines that an instruction outside of transactions stores to.
    #[tactic(auto, using(crate::proofs::Noting::noting))]
    fn add_reached(&mut self, machine: &Machine, core: u8) -> Result<(), AllocError>
        requires core { core < length machine.now.views }
        requires closed { is_open (view_at machine.now core).mode ≡ false }
        ensures keeps { KeepsNoted self.old self.new }
        ensures grown { OnOk result (HasMore self.old.lines.items self.new.lines.items) }
        ensures noted { OnOk result ((now : Situation) → StandsFor machine.now now.state now.doomed →
            now.state.pending core ≡ [] →
            StoresOn (machine_setting machine.now) self.new.lines.items now core) }
    {
        let Ok(preview) = machine.preview(core) else {
            unreachable!();
        };
        self.add_access(preview.reach.store)?;
        Ok(())
    }

    // The lines of an access.
    #[tactic(auto, using(crate::proofs::Noting::noting))]
    fn add_access(&mut self, access: Option<Access>) -> Result<(), AllocError>
        ensures keeps { KeepsNoted self.old self.new }
        ensures grown { OnOk result (HasMore self.old.lines.items self.new.lines.items) }
        ensures all { OnOk result ((address : ℕ) → Contains (loaded_addresses access) address →
            Contains self.new.lines.items (address / 64)) }
    {
        let Some(access) = access else {
            return Ok(());
        };
        let first = u64::from(access.addr);
        let last = first + u64::from(access.width.bytes()) - 1;
        self.add(line_at(first))?;
        self.add(line_at(last))?;
        Ok(())
    }

    // Each of these lines.
    #[tactic(auto, using(crate::proofs::Noting::noting))]
    fn add_all(&mut self, lines: &[u32]) -> Result<(), AllocError>
        ensures keeps { KeepsNoted self.old self.new }
        ensures grown { OnOk result (HasMore self.old.lines.items self.new.lines.items) }
        ensures all { OnOk result ((line : ℕ) → Contains lines.now line → Contains self.new.lines.items line) }
    {
        for line in lines {
            self.add(*line)?;
        }
        Ok(())
    }

    // A line, where it is not there.
    fn add(&mut self, line: u32) -> Result<(), AllocError>
        ensures keeps { KeepsNoted self.old self.new }
        ensures grown { OnOk result (HasMore self.old.lines.items self.new.lines.items) }
        ensures here { OnOk result (Contains self.new.lines.items line) }
    {
        if has(self.lines.as_slice(), line) {
            return Ok(());
        }
        self.lines.push(line)?;
        Ok(())
    }
}

// Whether a line is among these.
fn has(lines: &[u32], line: u32) -> bool
    ensures { result ≡ true ↔ Contains lines.now line }
{
    for other in lines {
        if *other == line {
            return true;
        }
    }
    false
}

// Whether a core is in a transaction that is not doomed.
fn is_open(machine: &Machine, core: u8) -> bool
    requires { core < length machine.now.views }
    ensures { result ≡ is_open (view_at machine.now core).mode }
{
    match machine.state(core) {
        Ok(state) => matches!(state, CoreState::Open(_)),
        Err(_) => unreachable!(),
    }
}
