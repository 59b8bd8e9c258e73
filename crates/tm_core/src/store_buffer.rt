//! A step of a core of which stores may be pending, over a machine's parts: [`step_pending`] and [`drain_oldest`].
//!
//! What the step comes to is foreseen on memory as the core sees it (`ahead`). Where its own store is not pending then,
//! `step` makes it, on memory over which the pending stores are laid (`laid`). A store hits other cores when it reaches
//! memory, and not when it is made.

ghost use Rattle.std.specs.Prelude.{◌≡◌, ◌^◌, ◌*◌, ◌+◌, ◌++◌, ◌∷◌, [], ◌<◌, ◌≤◌, All, ℕ, None, length};
ghost use Rattle.std.specs.Prelude.{IfSome, slice_set, vec_capacity};
ghost use Rattle.tm_model.specs.Access.{loaded_addresses};
ghost use Rattle.tm_core.specs.Representation.{IsOnLines, cpu_at};
ghost use Rattle.tm_core.specs.Stepping.{HitsOthers, IsSteppable, MayHit};
ghost use Rattle.tm_core.specs.StoreBuffers.{Drains, IsStorable, StepsPending};
ghost use Rattle.tm_core.specs.StepRefinement.{addresses_touched};
ghost use Rattle.tm_core.specs.Types.{Read, Running};

use crate::ahead::{Ahead, Pends, foresee};
use crate::conflict::{hit_load, hit_touched};
use crate::cpu::Cpu;
use crate::laid::{lay_over, take_off};
use crate::seen_memory::SeenMemory;
use crate::step::step_parts;
use ia_exec::Store;
use tm_model::{CoreState, Outcome};
use tm_quick::Listing;
use tm_sets::Sets;
use tm_whole::memory::write;

/// The oldest store of core c reaches memory, and condemns the cores that it hits.
pub fn drain_oldest<S: Sets>(
    memory: &mut [u8],
    cpus: &mut [Cpu],
    sets: &mut S,
    c: u8,
    pending: &mut Vec<Store>,
)
    requires core { MayHit (S.content sets.old) cpus.old c }
    requires small { length memory.old < 2 ^ 32 }
    requires within { length memory.old ≤ (S.content sets.old).fixed.line_count * 64 }
    requires some { 0 < length pending.old.items }
    requires storable { All (IsStorable (length memory.old)) pending.old.items }
    ensures drains { Drains memory.old memory.new (S.content sets.old) (S.content sets.new) cpus.old cpus.new
        pending.old.items pending.new.items c }
    ensures capacity { vec_capacity pending.new ≡ vec_capacity pending.old }
{
    let oldest = pending.remove(0);
    write(memory, Some(oldest));
    hit_touched(cpus, sets, c, None, Some(oldest));
}

// Makes the step of core c whose store is pending from then on: other cores see its load alone.
fn pend<S: Sets>(step: Pends, cpus: &mut [Cpu], sets: &mut S, c: u8, pending: &mut Vec<Store>)
    requires core { MayHit (S.content sets.old) cpus.old c }
    requires access { IfSome step.access (λ load. IsOnLines (S.content sets.old) load.addr load.width) }
    requires room { length pending.old.items < vec_capacity pending.old }
    ensures hits { HitsOthers (addresses_touched Read (loaded_addresses step.access)) c (S.content sets.old)
        (S.content sets.new) (slice_set cpus.old c
        (record (cpu_at cpus.old c) { base = step.regs; state = CoreState.Running })) cpus.new }
    ensures pending { pending.new.items ≡ pending.old.items ++ step.store ∷ [] }
    ensures capacity { vec_capacity pending.new ≡ vec_capacity pending.old }
{
    let cpu = &mut cpus[c as usize];
    cpu.base = step.regs;
    cpu.state = CoreState::Running;
    pending.push_reserved(step.store);
    hit_load(cpus, sets, c, step.access);
}

/// One step of core c, of which these stores are pending: what it does to memory, to them, and to what each core shows.
/// At most so many may be pending. `under` is room for what they overwrite while they lie over memory.
pub fn step_pending<S: Sets>(
    listing: &Listing,
    memory: &mut [u8],
    cpus: &mut [Cpu],
    sets: &mut S,
    c: u8,
    pending: &mut Vec<Store>,
    under: &mut Vec<Store>,
    most: u8,
) -> Outcome
    requires parts { IsSteppable listing.now.code.bytes.now listing.now.code.base memory.old (S.content sets.old)
        cpus.old }
    requires exists { c < length cpus.old }
    requires some { 0 < most }
    requires storable { All (IsStorable (length memory.old)) pending.old.items }
    requires few { length pending.old.items ≤ most }
    requires room { most ≤ vec_capacity pending.old }
    requires under { most ≤ vec_capacity under.old }
    ensures step { StepsPending None listing.now.code.bytes.now listing.now.code.base most memory.old memory.new
        (S.content sets.old) (S.content sets.new) cpus.old cpus.new pending.old.items pending.new.items c result }
    ensures storable { All (IsStorable (length memory.new)) pending.new.items }
    ensures few { length pending.new.items ≤ most }
    ensures capacity { vec_capacity pending.new ≡ vec_capacity pending.old }
    ensures under { vec_capacity under.new ≡ vec_capacity under.old }
{
    let seen = SeenMemory::of(memory, pending);
    match foresee(&listing.code, &seen, cpus, sets, c, pending, most) {
        Ahead::Goes => {
            under.clear();
            lay_over(memory, pending, under);
            let outcome = step_parts(listing, memory, cpus, sets, c, true);
            take_off(memory, under);
            outcome
        }
        Ahead::Stores(step) => {
            pend(step, cpus, sets, c, pending);
            Outcome::Plain
        }
        Ahead::Waits(_wait) => {
            drain_oldest(memory, cpus, sets, c, pending);
            Outcome::Drained
        }
    }
}
