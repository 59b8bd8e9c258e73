//! What a step comes to where stores of its core are pending: [`foresee`], which changes nothing.
//!
//! It is asked with memory as the core sees it. A step that waits is a drain in its place; one that stores outside
//! of transactions leaves its store pending, behind the others; any other is the step that `step` makes. The first
//! two are made by `store_buffer`.

ghost use Rattle.std.specs.Prelude.{◌≡◌, ◌^◌, ◌*◌, ◌<◌, ◌≤◌, ◌==◌, ℕ, None, Some, if◌then◌else◌, length};
ghost use Rattle.tm_sets.specs.Content.{Content};
ghost use Rattle.tm_model.specs.Shown.{View};
ghost use Rattle.tm_model.specs.State.{Opened};
ghost use Rattle.tm_model.specs.Steps.{needs_none};
ghost use Rattle.tm_core.specs.Representation.{IsHeld, cpu_at, cpu_view, cpu_views, kept_of};
ghost use Rattle.tm_core.specs.Representation.{parts_setting, setting_with};
ghost use Rattle.tm_core.specs.StepRefinement.{stepped};
ghost use Rattle.tm_core.specs.Stepping.{IsInRoom, IsSteppable};
ghost use Rattle.tm_core.specs.StoreBuffers.{IsAhead};
ghost use Rattle.tm_core.specs.Types.{Mid, Open, Running, Write};

use crate::buffering::Wait;
use crate::cpu::Cpu;
use crate::explain_reason::{by_room, plan, standing};
use crate::fences::waits;
use crate::seen_memory::SeenMemory;
use crate::two_steps::takes_two_steps;
use ia_addr::Access;
use ia_exec::Store;
use ia_regs::Regs;
use tm_model::CoreState;
use tm_rule::{Code, InsideResult, OutsideResult, load_at, outside};
use tm_sets::Sets;

/// An instruction outside of transactions whose store is pending from its step on.
#[derive(Clone, Copy)]
pub struct Pends {
    /// The registers behind it.
    pub regs: Regs,
    /// What its step loads from memory.
    pub access: Option<Access>,
    /// What it stores.
    pub store: Store,
}

/// What the next step of a core comes to.
#[derive(Clone, Copy)]
pub enum Ahead {
    /// It waits for this: the oldest store that is pending reaches memory in its place.
    Waits(Wait),
    /// It stores, and there is room for its store.
    Stores(Pends),
    /// It does not wait, and no store of it is pending behind it.
    Goes,
}

// Of a step that no store may be pending behind.
fn with_none(pending: &[Store]) -> Ahead
    ensures { result ≡ (if length pending.now == 0 then Ahead.Goes else Ahead.Waits Wait.ForNone) }
{
    if pending.is_empty() {
        Ahead::Goes
    } else {
        Ahead::Waits(Wait::ForNone)
    }
}

// Of an instruction that goes on and need not wait, with this load and this store.
fn with_room(
    regs: Regs,
    access: Option<Access>,
    store: Option<Store>,
    pending: &[Store],
    most: u8,
) -> Ahead
    ensures none { store ≡ None → result ≡ Ahead.Goes }
    ensures room { (made : Store) → store ≡ Some made → length pending.now < most →
        result ≡ Ahead.Stores (record { regs = regs; access = access; store = made }) }
    ensures full { (made : Store) → store ≡ Some made → most ≤ length pending.now →
        result ≡ Ahead.Waits Wait.ForRoom }
{
    match store {
        Some(store) if pending.len() < usize::from(most) => Ahead::Stores(Pends {
            regs,
            access,
            store,
        }),
        Some(_store) => Ahead::Waits(Wait::ForRoom),
        None => Ahead::Goes,
    }
}

// Of the next step of a running core with these registers.
fn foresee_running(
    code: &Code,
    memory: &SeenMemory,
    regs: &Regs,
    pending: &[Store],
    most: u8,
) -> Ahead
    requires small { length memory.now < 2 ^ 32 }
    requires some { 0 < most }
    ensures { (content : Content) (view : View) → view.base ≡ regs.now →
        IsAhead (setting_with code.now.bytes.now code.now.base (length memory.now) content most) memory.now
        pending.now view Running result }
{
    let size = memory.size();
    let row = standing(code, regs.eip);
    let access = load_at(&row, regs, size);
    let loaded = memory.load(access);
    match outside(&row, code, size, regs, loaded) {
        OutsideResult::Goes(next, store) => {
            if takes_two_steps(&row) {
                Ahead::Goes
            } else if waits(&row) {
                with_none(pending)
            } else {
                with_room(next, access, store, pending, most)
            }
        }
        OutsideResult::Begins(_next) => Ahead::Goes,
        OutsideResult::Stops(_stop) => with_none(pending),
    }
}

// Of the second step of an instruction that takes two.
fn foresee_mid(code: &Code, memory: &SeenMemory, cpu: &Cpu, pending: &[Store], most: u8) -> Ahead
    requires small { length memory.now < 2 ^ 32 }
    requires some { 0 < most }
    ensures { (content : Content) (view : View) → view.base ≡ cpu.now.base → view.kept ≡ cpu.now.kept →
        IsAhead (setting_with code.now.bytes.now code.now.base (length memory.now) content most) memory.now
        pending.now view Mid result }
{
    let size = memory.size();
    let row = standing(code, cpu.base.eip);
    match outside(&row, code, size, &cpu.base, cpu.kept) {
        OutsideResult::Goes(next, store) => with_room(next, None, store, pending, most),
        OutsideResult::Begins(_regs) => Ahead::Goes,
        OutsideResult::Stops(_stop) => Ahead::Goes,
    }
}

// Whether the step of an open core of this depth commits its transaction.
fn is_commit<S: Sets>(
    code: &Code,
    memory: &SeenMemory,
    cpu: &Cpu,
    sets: &S,
    c: u8,
    depth: u8,
) -> bool
    requires mode { cpu.now.state ≡ CoreState.Open depth }
    requires core { c < (S.content sets.now).fixed.cores }
    requires lines { length memory.now ≤ (S.content sets.now).fixed.line_count * 64 }
    requires small { length memory.now < 2 ^ 32 }
    requires room { IsInRoom (S.content sets.now) c }
    requires held { IsHeld ((S.content sets.now).fixed.room Write) (kept_of (S.content sets.now) c cpu.now) }
    ensures { result ≡ needs_none
        (parts_setting code.now.bytes.now code.now.base (length memory.now) (S.content sets.now))
        (Opened cpu.now.base 0)
        (stepped (parts_setting code.now.bytes.now code.now.base (length memory.now) (S.content sets.now)) memory.now
        (cpu_view (S.content sets.now) c cpu.now) (Open depth)).outcome }
{
    let planned = plan(code, memory, cpu, sets, c, depth);
    match planned.result {
        InsideResult::Ends(_regs) => {
            if depth == 1 {
                match by_room(sets, c, planned.access, None) {
                    Some(_over) => false,
                    None => true,
                }
            } else {
                false
            }
        }
        InsideResult::Fails(_cause) => false,
        InsideResult::GoesOn(_regs, _store) => false,
        InsideResult::Nests(_regs) => false,
    }
}

// Of the next step of an open core of this depth.
fn foresee_open<S: Sets>(
    code: &Code,
    memory: &SeenMemory,
    cpu: &Cpu,
    sets: &S,
    c: u8,
    depth: u8,
    pending: &[Store],
) -> Ahead
    requires mode { cpu.now.state ≡ CoreState.Open depth }
    requires core { c < (S.content sets.now).fixed.cores }
    requires lines { length memory.now ≤ (S.content sets.now).fixed.line_count * 64 }
    requires small { length memory.now < 2 ^ 32 }
    requires room { IsInRoom (S.content sets.now) c }
    requires held { IsHeld ((S.content sets.now).fixed.room Write) (kept_of (S.content sets.now) c cpu.now) }
    ensures { (most : ℕ) →
        IsAhead (setting_with code.now.bytes.now code.now.base (length memory.now) (S.content sets.now) most)
        memory.now pending.now (cpu_view (S.content sets.now) c cpu.now) (Open depth) result }
{
    if is_commit(code, memory, cpu, sets, c, depth) {
        with_none(pending)
    } else {
        Ahead::Goes
    }
}

/// What the next step of core c comes to, of which these stores are pending, and at most so many may be.
pub fn foresee<S: Sets>(
    code: &Code,
    memory: &SeenMemory,
    cpus: &[Cpu],
    sets: &S,
    c: u8,
    pending: &[Store],
    most: u8,
) -> Ahead
    requires parts { IsSteppable code.now.bytes.now code.now.base memory.now (S.content sets.now) cpus.now }
    requires exists { c < length cpus.now }
    requires some { 0 < most }
    ensures { IsAhead (setting_with code.now.bytes.now code.now.base (length memory.now) (S.content sets.now) most)
        memory.now pending.now (cpu_views (S.content sets.now) cpus.now c) (cpu_at cpus.now c).state result }
{
    let cpu = &cpus[c as usize];
    match cpu.state {
        CoreState::Running => foresee_running(code, memory, &cpu.base, pending, most),
        CoreState::Mid => foresee_mid(code, memory, cpu, pending, most),
        CoreState::Open(depth) => foresee_open(code, memory, cpu, sets, c, depth, pending),
        CoreState::Condemned(_depth) => Ahead::Goes,
        CoreState::Stopped(_stop) => Ahead::Goes,
    }
}
