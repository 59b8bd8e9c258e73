//! What a core's next step does with the stores of its core, told before it is made: [`Machine::ahead`].
//!
//! It is foreseen by `ahead`, as a step foresees it that is made while stores may be pending (`store_buffer`), and it
//! is told of the step under no event. Nothing changes.

ghost use Rattle.std.specs.Prelude.{◌≡◌, ◌<◌, ◌≤◌, All, length, IfOk, IsOk, ◌↔◌};
ghost use Rattle.tm_core.specs.Buffered.{setting_at};
ghost use Rattle.tm_core.specs.Buffering.{TellsAhead};
ghost use Rattle.tm_core.specs.Representation.{cpu_views, setting_with};
ghost use Rattle.tm_core.specs.Stepping.{IsSteppable};
ghost use Rattle.tm_core.specs.StoreBuffers.{IsStorable, ShowsAhead};
ghost use Rattle.tm_core.specs.Theorem.{view_at};

use crate::ahead::{Ahead, foresee};
use crate::cpu::Cpu;
use crate::fault::NoSuchCore;
use crate::machine::Machine;
use crate::seen_memory::SeenMemory;
use crate::unbuffered::Unbuffered;
use ia_exec::Store;
use tm_rule::Code;
use tm_sets::Sets;

/// What a step that waits waits for: the oldest store of its core that is pending reaches memory in its place.
#[derive(Clone, Copy, PartialEq, Eq, Debug)]
pub enum Wait {
    /// That no store of its core is pending: a LOCK form, XCHG with memory, MFENCE, CPUID, a stop, and the XEND that
    /// commits.
    ForNone,
    /// That there is room for its store: as many are pending as may be.
    ForRoom,
}

/// What the next step of a core does with the stores of its core, under no event.
#[derive(Clone, Copy, PartialEq, Eq, Debug)]
pub enum Buffering {
    /// It waits: the oldest store that is pending reaches memory in its place.
    Waits(Wait),
    /// It does not wait, and its own store is pending from then on, behind the others.
    Pends,
    /// It does not wait, and no store of it is pending then: it stores nothing, or in a transaction, or in memory at
    /// once.
    Goes,
}

// Of the next step of core c, of which these stores are pending, and at most so many may be.
fn told_ahead<S: Sets>(
    code: &Code,
    memory: &[u8],
    cpus: &[Cpu],
    sets: &S,
    c: u8,
    pending: &[Store],
    most: u8,
) -> Buffering
    requires parts { IsSteppable code.now.bytes.now code.now.base memory.now (S.content sets.now) cpus.now }
    requires exists { c < length cpus.now }
    requires some { 0 < most }
    requires storable { All (IsStorable (length memory.now)) pending.now }
    ensures { ShowsAhead (setting_with code.now.bytes.now code.now.base (length memory.now) (S.content sets.now) most)
        memory.now pending.now (cpu_views (S.content sets.now) cpus.now c) result }
{
    let seen = SeenMemory::of(memory, pending);
    match foresee(code, &seen, cpus, sets, c, pending, most) {
        Ahead::Waits(wait) => Buffering::Waits(wait),
        Ahead::Stores(_step) => Buffering::Pends,
        Ahead::Goes => Buffering::Goes,
    }
}

impl<S: Sets> Machine<S> {
    /// What the next step of a core does with the stores of its core, if it makes it now, under no event: it waits, its
    /// store will be pending, or neither. Where no store may be pending, each step goes. `NoSuchCore` (42). Takes no
    /// memory, and changes nothing; its work is that of planning the instruction once.
    pub fn ahead(&self, core: u8) -> Result<Buffering, NoSuchCore>
        ensures exists { IsOk result ↔ (core < length self.now.views) }
        ensures told { IfOk result (λ told. TellsAhead self.now core told) }
        ensures none { self.now.store_buffer ≡ 0 → IfOk result (λ told. told ≡ Buffering.Goes) }
    {
        if self.is_direct(core) {
            self.nothing_pending();
            return Ok(Buffering::Goes);
        }
        if core >= self.cores() {
            return Err(NoSuchCore);
        }
        Ok(
            self.unbuffered
                .ahead(core, self.pending_of(core), self.most),
        )
    }
}

impl<S: Sets> Unbuffered<S> {
    // Of the next step of a core, of which these stores are pending, and at most so many may be.
    pub(crate) fn ahead(&self, core: u8, pending: &[Store], most: u8) -> Buffering
        requires exists { core < length self.now.views }
        requires some { 0 < most }
        requires storable { All (IsStorable (length self.now.memory)) pending.now }
        ensures { ShowsAhead (setting_at self.now most) self.now.memory pending.now (view_at self.now core) result }
    {
        let code = Code {
            bytes: &self.code,
            base: self.base,
            rows: &self.rows,
        };
        told_ahead(
            &code,
            &self.memory,
            &self.cpus,
            &self.sets,
            core,
            pending,
            most,
        )
    }
}
