//! What is other behind a step: [`delta_of`], of what was shown before it, its outcome, and the machine behind it.
//!
//! The lists come first, as they need memory; then the rest is put together, which does not. The outcome decides
//! which bytes count as stored, and whom the step hit: nobody, where an abort from outside came in its place, and whom
//! the drain hit, where that did. A store that is pending behind the step is in no byte yet. The step is made by the
//! caller.

ghost use Rattle.std.specs.Prelude.{◌≡◌, ◌<◌, ◌&&◌, not, ℕ, IfOk, Ok, Some, None, if◌then◌else◌, length};
ghost use Rattle.std.specs.Prelude.{slice_get, slice_index, slice_index_or};
ghost use Rattle.std.specs.FinSet as set;
ghost use Rattle.tm_core.specs.Theorem.{ShownMachine, lines_shown, pending_at, view_at};
ghost use Rattle.tm_model.specs.Access.{loaded_addresses};
ghost use Rattle.tm_model.specs.Conflicts.{addresses_at_once};
ghost use Rattle.tm_model.specs.Runs.{is_aborted_by};
ghost use Rattle.tm_why.specs.Watched.{is_drain};
ghost use Rattle.tm_page.specs.Applied.{hit_on, is_listed, patched, stored_at};
ghost use Rattle.tm_page.specs.Before.{IsBefore};
ghost use Rattle.tm_page.specs.Difference.{IsDifference, addresses_told, byte_told};
ghost use Rattle.tm_page.specs.Shows.{IsAddress};

use crate::before::Before;
use crate::bytes::{accessed_bytes, drained_bytes, memory_bytes, private_bytes};
use crate::changes::changes;
use crate::delta::{PageDelta, StoredByte};
use crate::lines::{joined, lines_of};
use ia_exec::Store;
use std::alloc::{AllocError, Global};
use tm_core::{Machine, RunFault};
use tm_model::{Hit, Outcome};
use tm_sets::Kind;
use tm_why::Asked;

/// What the step of this outcome changed, of what was shown before it, where these are all addresses at which the
/// transaction of its core keeps a byte for itself. `NoSuchCore` (42), or `NoMemory` (43).
pub fn delta_of(
    alloc: Global,
    before: &Before,
    outcome: Outcome,
    kept: &[u64],
    machine: &Machine,
) -> Result<PageDelta, RunFault>
    ensures { IfOk result (λ delta. (start : ShownMachine) → IsBefore start before.now.asked.core before.now →
        IsDifference start machine.now before.now.asked.core outcome before.now.reach kept.now delta) }
{
    let core = before.asked.core;
    if core >= machine.cores() {
        return Err(RunFault::NoSuchCore);
    }
    let reads = lines_joined(alloc, machine, core, Kind::Read, before.reads.as_slice())?;
    let writes = lines_joined(alloc, machine, core, Kind::Write, before.writes.as_slice())?;
    let pending = store_pended(machine, core, before.pending);
    let stored = granted(stored_by(alloc, before, outcome, kept, pending, machine))?;
    Ok(put_together(before, outcome, reads, writes, stored, pending, machine))
}

// The store of a core that is pending behind so many others.
fn store_pended(machine: &Machine, core: u8, before: usize) -> Option<Store>
    requires { core < length machine.now.views }
    ensures { result ≡ slice_get (pending_at machine.now core) before }
{
    let stores = machine.pending(core).unwrap();
    stores.get(before).copied()
}

// A delta of these lists, and of what the machine shows behind the step.
fn put_together(
    before: &Before,
    outcome: Outcome,
    reads: Vec<u32>,
    writes: Vec<u32>,
    stored: Vec<StoredByte>,
    pending: Option<Store>,
    machine: &Machine,
) -> PageDelta
    requires { before.now.asked.core < length machine.now.views }
    ensures core { result.core ≡ before.now.asked.core }
    ensures outcome { result.outcome ≡ outcome }
    ensures state { result.state ≡ (view_at machine.now before.now.asked.core).mode }
    ensures registers { patched result.registers before.now.regs ≡ (view_at machine.now before.now.asked.core).regs }
    ensures reads { result.reads ≡ reads }
    ensures writes { result.writes ≡ writes }
    ensures stored { result.stored ≡ stored }
    ensures pending { result.pending ≡ pending }
    ensures hits { (other : ℕ) → hit_on result other
        ≡ (if is_aborted_by outcome then None
        else if is_drain outcome then slice_index_or before.now.asked.drain_hits other None
        else slice_index_or before.now.asked.hits other None) }
{
    let core = before.asked.core;
    PageDelta {
        core,
        outcome,
        state: machine.state(core).unwrap(),
        registers: changes(&before.regs, &machine.regs(core).unwrap()),
        reads,
        writes,
        load: before.reach.load,
        stored,
        pending,
        hits: hits_made(&before.asked, outcome),
    }
}

// The lines of a set that were not in it before.
fn lines_joined(
    alloc: Global,
    machine: &Machine,
    core: u8,
    kind: Kind,
    old: &[u32],
) -> Result<Vec<u32>, RunFault>
    ensures { IfOk result (λ lines. (line : ℕ) → is_listed lines.items line
        ≡ (set.contains (lines_shown (view_at machine.now core) kind) line && not (is_listed old.now line))) }
{
    let new = lines_of(alloc, machine, core, kind)?;
    granted(joined(alloc, old, new.as_slice()))
}

// A list, where there is memory for it.
fn granted<T>(made: Result<Vec<T>, AllocError>) -> Result<Vec<T>, RunFault>
    ensures { IfOk result (λ list. made ≡ Ok list) }
{
    match made {
        Ok(list) => Ok(list),
        Err(_) => Err(RunFault::NoMemory),
    }
}

// The bytes that a step stored, of which this store is pending behind it.
fn stored_by(
    alloc: Global,
    before: &Before,
    outcome: Outcome,
    kept: &[u64],
    pended: Option<Store>,
    machine: &Machine,
) -> Result<Vec<StoredByte>, AllocError>
    requires { before.now.asked.core < length machine.now.views }
    ensures { IfOk result
        (λ bytes. (address : ℕ) → IsAddress (length machine.now.memory) address → stored_at bytes.items address
        ≡ (if is_listed (addresses_told outcome before.now.reach kept.now pended before.now.oldest) address
        then Some (byte_told outcome machine.now before.now.asked.core address)
        else None)) }
{
    match outcome {
        Outcome::Inside => private_bytes(alloc, machine, before.asked.core, before.reach.store),
        Outcome::Plain => bytes_at_once(alloc, before, pended, machine),
        Outcome::Drained => drained_bytes(alloc, machine.view(), before.oldest),
        // Not what the XEND reaches, but all that the transaction kept.
        Outcome::Committed => memory_bytes(alloc, machine.view(), kept),
        Outcome::Loaded
        | Outcome::Stopped(_)
        | Outcome::Idle
        | Outcome::Begun
        | Outcome::Aborted(_)
        | Outcome::AbortedBy(_, _) => Ok(Vec::new(alloc)),
    }
}

// The bytes of memory that an instruction outside of transactions stored: none yet, where its store is pending.
fn bytes_at_once(
    alloc: Global,
    before: &Before,
    pended: Option<Store>,
    machine: &Machine,
) -> Result<Vec<StoredByte>, AllocError>
    ensures { IfOk result
        (λ bytes. (address : ℕ) → IsAddress (length machine.now.memory) address → stored_at bytes.items address
        ≡ (if is_listed (addresses_at_once pended (loaded_addresses before.now.reach.store)) address
        then Some (slice_index machine.now.memory address)
        else None)) }
{
    match pended {
        Some(_store) => Ok(Vec::new(alloc)),
        None => accessed_bytes(alloc, machine.view(), before.reach.store),
    }
}

// The hits of a step that was made: none, where an abort from outside came in its place, and those of the drain, where
// the oldest pending store reached memory in its place.
fn hits_made(asked: &Asked, outcome: Outcome) -> [Option<Hit>; 64]
    ensures { (other : ℕ) → slice_index_or result other None
        ≡ (if is_aborted_by outcome then None
        else if is_drain outcome then slice_index_or asked.now.drain_hits other None
        else slice_index_or asked.now.hits other None) }
{
    match outcome {
        Outcome::AbortedBy(_, _) => no_hits(),
        Outcome::Drained => asked.drain_hits,
        Outcome::Plain
        | Outcome::Loaded
        | Outcome::Stopped(_)
        | Outcome::Idle
        | Outcome::Begun
        | Outcome::Inside
        | Outcome::Committed
        | Outcome::Aborted(_) => asked.hits,
    }
}

// No hit on any core.
fn no_hits() -> [Option<Hit>; 64]
    ensures { (other : ℕ) → slice_index_or result other None ≡ None }
{
    [None; 64]
}
