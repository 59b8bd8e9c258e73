//! One step of a run with store buffers: whether a core may have this outcome now, with what is pending of it, and what
//! memory, its queue and the core are then.
//!
//! [`step_queued`] asks the rules of the core as it stands, on memory as that core sees it (`seen`). What an
//! instruction outside of transactions stores goes to the end of its queue, where there is room, and a drain writes
//! the oldest. A step that waits until none is pending (`fences`; a stop; a commit) is refused while one is, and else
//! is that of `step` and `flat`, on memory itself. Whether a transaction would have been hit or had room for its lines
//! is not asked.

ghost use Rattle.std.specs.Prelude.{◌≡◌, ℕ, suc, ◌+◌, ◌<◌, ◌^◌, ◌≤◌, List, All, length, Some, None, IfSome};
ghost use Rattle.std.specs.Prelude.{if◌then◌else◌, option_and_then, vec_capacity};
ghost use Rattle.std.specs.List.{AllByRecursion};
ghost use Rattle.tm_model.specs.Fences.{is_fence_at};
ghost use Rattle.tm_model.specs.Isolated.{isolated_body};
ghost use Rattle.tm_model.specs.Setting.{Setting, outside_at, setting_of, value_at};
ghost use Rattle.tm_model.specs.State.{Closed, Halted, Midway, Opened, seen_memory};
ghost use Rattle.tm_model.specs.Steps.{after_begin, after_commit, after_drain, after_load, after_plain, after_stop};
ghost use Rattle.tm_model.specs.Steps.{store_of};
ghost use Rattle.tm_rule.specs.Rule.{IsWell, StandsAt, found, outside_of};
ghost use Rattle.tm_hist.specs.Queues.{IsQueue, IsStorable, after_queued, behind_queue, queue_setting, queue_step};
ghost use Rattle.tm_hist.specs.Queues.{queued_in, storing, storing_nothing, with_none_pending};
ghost use Rattle.tm_hist.specs.Serial.{core_of, flat_setting, steps_of};

use crate::fences::waits;
use crate::seen::value_seen;
use crate::serial_core::SerialCore;
use crate::step::{open_step, plain_step, registers_after_abort, stop_step};
use ia_decode::Decoded;
use ia_exec::Store;
use ia_regs::Regs;
use tm_core::takes_two_steps;
use tm_model::Outcome;
use tm_quick::Listing;
use tm_rule::{Code, OutsideResult, Stop, fetch, load_at, outside, row};
use tm_whole::memory::write;

// The value that the instruction at these registers loads, as the core sees memory.
fn value_queued(row: &Decoded, size: u32, memory: &[u8], queue: &[Store], regs: &Regs) -> u32
    requires well { IsWell (found row.now) }
    requires size { length memory.now ≡ size }
    requires lie { All (IsStorable (length memory.now)) queue.now }
    ensures { (code : List ℕ) (base : ℕ) → StandsAt code base regs.now.eip row.now →
        result ≡ value_at (setting_of code base size 0 0 0) regs.now (seen_memory memory.now queue.now) }
{
    match load_at(row, regs, size) {
        Some(access) => value_seen(memory, queue, access.addr, access.width),
        None => 0,
    }
}

// What it comes to outside of transactions.
fn outside_queued(
    row: &Decoded,
    code: &Code<'_>,
    size: u32,
    memory: &[u8],
    queue: &[Store],
    regs: &Regs,
) -> OutsideResult
    requires row { StandsAt code.now.bytes.now code.now.base regs.now.eip row.now }
    requires size { length memory.now ≡ size }
    requires lie { All (IsStorable (length memory.now)) queue.now }
    ensures value { result ≡ outside_at (flat_setting code.now size) regs.now (seen_memory memory.now queue.now) }
    ensures lies { IfSome (store_of result) (IsStorable (length memory.now)) }
{
    outside(
        row,
        code,
        size,
        regs,
        value_queued(row, size, memory, queue, regs),
    )
}

// A step that goes on outside of transactions, of an instruction that does not wait: what it stores is pending now,
// where there is room.
fn pend(done: &OutsideResult, stores: u32, queue: &mut Vec<Store>) -> Option<SerialCore>
    requires room { vec_capacity queue.old ≡ stores }
    ensures step { (memory : List ℕ) → storing memory stores queue.old.items done.now
        ≡ behind_queue memory queue.new.items result }
    ensures queue { (size : ℕ) → IsQueue size stores queue.old → IfSome (store_of done.now) (IsStorable size) →
        IsQueue size stores queue.new }
    ensures growth { IfSome result (λ c. steps_of c ≤ 0) }
{
    match done {
        OutsideResult::Goes(regs, stored) => match stored {
            None => Some(SerialCore::Closed(*regs)),
            Some(store) => {
                if queue.as_slice().len() < stores as usize {
                    queue.push_reserved(*store);
                    Some(SerialCore::Closed(*regs))
                } else {
                    None
                }
            }
        },
        OutsideResult::Begins(_) | OutsideResult::Stops(_) => None,
    }
}

// The second step of an instruction that takes two, which has loaded this value.
fn store_queued(
    row: &Decoded,
    code: &Code<'_>,
    size: u32,
    stores: u32,
    queue: &mut Vec<Store>,
    regs: &Regs,
    value: u32,
) -> Option<SerialCore>
    requires row { StandsAt code.now.bytes.now code.now.base regs.now.eip row.now }
    requires room { vec_capacity queue.old ≡ stores }
    ensures step { (memory : List ℕ) → storing memory stores queue.old.items
        (outside_of code.now.bytes.now code.now.base size regs.now value)
        ≡ behind_queue memory queue.new.items result }
    ensures queue { IsQueue size stores queue.old → IsQueue size stores queue.new }
    ensures growth { IfSome result (λ c. steps_of c ≤ 0) }
{
    pend(&outside(row, code, size, regs, value), stores, queue)
}

// [`store_queued`] of what stands at EIP.
fn finish_queued(
    code: &Code<'_>,
    size: u32,
    stores: u32,
    queue: &mut Vec<Store>,
    regs: &Regs,
    value: u32,
) -> Option<SerialCore>
    requires room { vec_capacity queue.old ≡ stores }
    ensures step { (memory : List ℕ) → storing memory stores queue.old.items
        (outside_of code.now.bytes.now code.now.base size regs.now value)
        ≡ behind_queue memory queue.new.items result }
    ensures queue { IsQueue size stores queue.old → IsQueue size stores queue.new }
    ensures growth { IfSome result (λ c. steps_of c ≤ 0) }
{
    match row(code, regs.eip) {
        Some(row) => store_queued(row, code, size, stores, queue, regs, value),
        None => {
            let row = fetch(code, regs.eip);
            store_queued(&row, code, size, stores, queue, regs, value)
        }
    }
}

// One instruction outside of transactions, in one step, that waits: with none pending.
fn wait_queued(
    row: &Decoded,
    code: &Code<'_>,
    size: u32,
    memory: &mut [u8],
    queue: &[Store],
    regs: &Regs,
) -> Option<SerialCore>
    requires row { StandsAt code.now.bytes.now code.now.base regs.now.eip row.now }
    requires size { length memory.old ≡ size }
    ensures step { with_none_pending queue.now
        (after_plain memory.old (outside_at (flat_setting code.now size) regs.now memory.old))
        ≡ behind_queue memory.new queue.now result }
    ensures growth { IfSome result (λ c. steps_of c ≤ 1) }
{
    if queue.is_empty() {
        plain_step(row, code, size, memory, regs)
    } else {
        None
    }
}

// One instruction outside of transactions, in one step.
fn plain_queued(
    row: &Decoded,
    code: &Code<'_>,
    size: u32,
    stores: u32,
    memory: &mut [u8],
    queue: &mut Vec<Store>,
    regs: &Regs,
) -> Option<SerialCore>
    requires row { StandsAt code.now.bytes.now code.now.base regs.now.eip row.now }
    requires size { length memory.old ≡ size }
    requires queue { IsQueue (length memory.old) stores queue.old }
    ensures step { (if is_fence_at code.now.bytes.now code.now.base regs.now
        then with_none_pending queue.old.items
        (after_plain memory.old (outside_at (flat_setting code.now size) regs.now memory.old))
        else storing memory.old stores queue.old.items
        (outside_at (flat_setting code.now size) regs.now (seen_memory memory.old queue.old.items)))
        ≡ behind_queue memory.new queue.new.items result }
    ensures queue { IsQueue (length memory.old) stores queue.new }
    ensures growth { IfSome result (λ c. steps_of c ≤ 1) }
{
    if waits(row) {
        wait_queued(row, code, size, memory, queue.as_slice(), regs)
    } else {
        let done = outside_queued(row, code, size, memory, queue.as_slice(), regs);
        pend(&done, stores, queue)
    }
}

// The first step of an instruction that takes two.
fn load_queued(
    row: &Decoded,
    code: &Code<'_>,
    size: u32,
    memory: &[u8],
    queue: &[Store],
    regs: &Regs,
) -> Option<SerialCore>
    requires row { StandsAt code.now.bytes.now code.now.base regs.now.eip row.now }
    requires size { length memory.now ≡ size }
    requires lie { All (IsStorable (length memory.now)) queue.now }
    ensures step { storing_nothing memory.now queue.now (after_load (seen_memory memory.now queue.now) regs.now
        (value_at (flat_setting code.now size) regs.now (seen_memory memory.now queue.now))
        (outside_at (flat_setting code.now size) regs.now (seen_memory memory.now queue.now)))
        ≡ behind_queue memory.now queue.now result }
    ensures growth { IfSome result (λ c. steps_of c ≤ 0) }
{
    match outside_queued(row, code, size, memory, queue, regs) {
        OutsideResult::Goes(_, _) => {
            let value = value_queued(row, size, memory, queue, regs);
            Some(SerialCore::Midway(*regs, value))
        }
        OutsideResult::Begins(_) | OutsideResult::Stops(_) => None,
    }
}

// An XBEGIN outside of transactions, which does not wait.
fn begin_queued(
    row: &Decoded,
    code: &Code<'_>,
    size: u32,
    memory: &[u8],
    queue: &[Store],
    regs: &Regs,
) -> Option<SerialCore>
    requires row { StandsAt code.now.bytes.now code.now.base regs.now.eip row.now }
    requires size { length memory.now ≡ size }
    requires lie { All (IsStorable (length memory.now)) queue.now }
    ensures step { storing_nothing memory.now queue.now (after_begin (seen_memory memory.now queue.now) regs.now
        (outside_at (flat_setting code.now size) regs.now (seen_memory memory.now queue.now)))
        ≡ behind_queue memory.now queue.now result }
    ensures growth { IfSome result (λ c. steps_of c ≤ 1) }
{
    match outside_queued(row, code, size, memory, queue, regs) {
        OutsideResult::Begins(_) => Some(SerialCore::Opened(*regs, 1)),
        OutsideResult::Goes(_, _) | OutsideResult::Stops(_) => None,
    }
}

// An instruction outside of transactions that stops for this reason: with none pending.
fn stop_queued(
    row: &Decoded,
    code: &Code<'_>,
    size: u32,
    memory: &[u8],
    queue: &[Store],
    regs: &Regs,
    stop: Stop,
) -> Option<SerialCore>
    requires row { StandsAt code.now.bytes.now code.now.base regs.now.eip row.now }
    requires size { length memory.now ≡ size }
    ensures step { with_none_pending queue.now
        (after_stop memory.now regs.now stop (outside_at (flat_setting code.now size) regs.now memory.now))
        ≡ behind_queue memory.now queue.now result }
    ensures growth { IfSome result (λ c. steps_of c ≤ 1) }
{
    if queue.is_empty() {
        stop_step(row, code, size, memory, regs, stop)
    } else {
        None
    }
}

// The oldest store reaches memory, whatever its core is at; nothing where none is pending.
fn drain(
    memory: &mut [u8],
    stores: u32,
    queue: &mut Vec<Store>,
    core: SerialCore,
) -> Option<SerialCore>
    requires { IsQueue (length memory.old) stores queue.old }
    ensures step { after_drain memory.old queue.old.items (core_of core)
        ≡ behind_queue memory.new queue.new.items result }
    ensures queue { IsQueue (length memory.old) stores queue.new }
    ensures growth { IfSome result (λ c. steps_of c ≤ steps_of core) }
{
    if queue.as_slice().is_empty() {
        return None;
    }
    let oldest = queue.remove(0);
    write(memory, Some(oldest));
    Some(core)
}

// A step of a core that is in no transaction.
fn closed_queued(
    row: &Decoded,
    code: &Code<'_>,
    size: u32,
    stores: u32,
    memory: &mut [u8],
    queue: &mut Vec<Store>,
    regs: &Regs,
    outcome: &Outcome,
) -> Option<SerialCore>
    requires row { StandsAt code.now.bytes.now code.now.base regs.now.eip row.now }
    requires size { length memory.old ≡ size }
    requires queue { IsQueue (length memory.old) stores queue.old }
    ensures step { after_queued (queue_setting code.now size stores) memory.old queue.old.items (Closed regs.now)
        outcome.now ≡ behind_queue memory.new queue.new.items result }
    ensures queue { IsQueue (length memory.old) stores queue.new }
    ensures growth { IfSome result (λ c. steps_of c ≤ 1) }
{
    match outcome {
        Outcome::Plain => {
            if takes_two_steps(row) {
                None
            } else {
                plain_queued(row, code, size, stores, memory, queue, regs)
            }
        }
        Outcome::Loaded => {
            if takes_two_steps(row) {
                load_queued(row, code, size, memory, queue.as_slice(), regs)
            } else {
                None
            }
        }
        Outcome::Stopped(stop) => {
            stop_queued(row, code, size, memory, queue.as_slice(), regs, *stop)
        }
        Outcome::Begun => begin_queued(row, code, size, memory, queue.as_slice(), regs),
        Outcome::Drained => drain(memory, stores, queue, SerialCore::Closed(*regs)),
        Outcome::Idle | Outcome::Inside | Outcome::Committed => None,
        Outcome::Aborted(_) | Outcome::AbortedBy(_, _) => None,
    }
}

// The commit of a core that has made so many steps since its XBEGIN: with none pending.
fn commit_queued(
    listing: &Listing<'_>,
    size: u32,
    memory: &mut [u8],
    queue: &[Store],
    regs: &Regs,
    steps: u64,
) -> Option<SerialCore>
    requires size { length memory.old ≡ size }
    requires few { steps + 1 < 2 ^ 64 }
    ensures step { with_none_pending queue.now (option_and_then (after_commit memory.old)
        (isolated_body (flat_setting listing.now.code size) regs.now memory.old (suc steps)))
        ≡ behind_queue memory.new queue.now result }
    ensures growth { IfSome result (λ c. steps_of c ≤ steps + 1) }
{
    if queue.is_empty() {
        open_step(listing, size, memory, regs, steps, &Outcome::Committed)
    } else {
        None
    }
}

// A step of a core that has made so many steps since its XBEGIN.
fn open_queued(
    listing: &Listing<'_>,
    size: u32,
    stores: u32,
    memory: &mut [u8],
    queue: &mut Vec<Store>,
    regs: &Regs,
    steps: u64,
    outcome: &Outcome,
) -> Option<SerialCore>
    requires size { length memory.old ≡ size }
    requires few { steps + 1 < 2 ^ 64 }
    requires queue { IsQueue (length memory.old) stores queue.old }
    ensures step { after_queued (queue_setting listing.now.code size stores) memory.old queue.old.items
        (Opened regs.now steps) outcome.now ≡ behind_queue memory.new queue.new.items result }
    ensures queue { IsQueue (length memory.old) stores queue.new }
    ensures growth { IfSome result (λ c. steps_of c ≤ steps + 1) }
{
    let code = &listing.code;
    match outcome {
        Outcome::Inside => Some(SerialCore::Opened(*regs, steps + 1)),
        Outcome::Committed => commit_queued(listing, size, memory, queue.as_slice(), regs, steps),
        Outcome::Aborted(status) => Some(SerialCore::Closed(registers_after_abort(
            code, regs, *status,
        ))),
        Outcome::AbortedBy(_interference, status) => Some(SerialCore::Closed(registers_after_abort(
            code, regs, *status,
        ))),
        Outcome::Drained => drain(memory, stores, queue, SerialCore::Opened(*regs, steps)),
        Outcome::Plain | Outcome::Loaded | Outcome::Stopped(_) | Outcome::Idle | Outcome::Begun =>
            None,
    }
}

// A step of a core between the two steps of an instruction.
fn midway_queued(
    code: &Code<'_>,
    size: u32,
    stores: u32,
    memory: &mut [u8],
    queue: &mut Vec<Store>,
    regs: &Regs,
    value: u32,
    outcome: &Outcome,
) -> Option<SerialCore>
    requires size { length memory.old ≡ size }
    requires queue { IsQueue (length memory.old) stores queue.old }
    ensures step { after_queued (queue_setting code.now size stores) memory.old queue.old.items (Midway regs.now value)
        outcome.now ≡ behind_queue memory.new queue.new.items result }
    ensures queue { IsQueue (length memory.old) stores queue.new }
    ensures growth { IfSome result (λ c. steps_of c ≤ 0) }
{
    match outcome {
        Outcome::Plain => finish_queued(code, size, stores, queue, regs, value),
        Outcome::Drained => drain(memory, stores, queue, SerialCore::Midway(*regs, value)),
        _ => None,
    }
}

// A step of a core that has stopped.
fn halted_queued(
    stores: u32,
    memory: &mut [u8],
    queue: &mut Vec<Store>,
    regs: &Regs,
    stop: Stop,
    outcome: &Outcome,
) -> Option<SerialCore>
    requires queue { IsQueue (length memory.old) stores queue.old }
    ensures step { (setting : Setting) → after_queued setting memory.old queue.old.items (Halted regs.now stop)
        outcome.now ≡ behind_queue memory.new queue.new.items result }
    ensures queue { IsQueue (length memory.old) stores queue.new }
    ensures growth { IfSome result (λ c. steps_of c ≤ 0) }
{
    match outcome {
        Outcome::Idle => Some(SerialCore::Halted(*regs, stop)),
        Outcome::Drained => drain(memory, stores, queue, SerialCore::Halted(*regs, stop)),
        _ => None,
    }
}

// The core after its step of this outcome, where the rules of a run allow that; memory and the queue change with it.
fn core_queued(
    listing: &Listing<'_>,
    size: u32,
    stores: u32,
    memory: &mut [u8],
    queue: &mut Vec<Store>,
    core: &SerialCore,
    outcome: &Outcome,
) -> Option<SerialCore>
    requires size { length memory.old ≡ size }
    requires few { steps_of core.now + 1 < 2 ^ 64 }
    requires queue { IsQueue (length memory.old) stores queue.old }
    ensures step { after_queued (queue_setting listing.now.code size stores) memory.old queue.old.items
        (core_of core.now) outcome.now ≡ behind_queue memory.new queue.new.items result }
    ensures queue { IsQueue (length memory.old) stores queue.new }
    ensures growth { IfSome result (λ c. steps_of c ≤ steps_of core.now + 1) }
{
    let code = &listing.code;
    match core {
        SerialCore::Closed(regs) => match row(code, regs.eip) {
            Some(row) => closed_queued(row, code, size, stores, memory, queue, regs, outcome),
            None => {
                let row = fetch(code, regs.eip);
                closed_queued(&row, code, size, stores, memory, queue, regs, outcome)
            }
        },
        SerialCore::Opened(regs, steps) => {
            open_queued(listing, size, stores, memory, queue, regs, *steps, outcome)
        }
        SerialCore::Midway(regs, value) => {
            midway_queued(code, size, stores, memory, queue, regs, *value, outcome)
        }
        SerialCore::Halted(regs, stop) => {
            halted_queued(stores, memory, queue, regs, *stop, outcome)
        }
    }
}

/// One step of a run in which at most so many stores of a core are pending: the pair of a core and its outcome. False
/// where the rules of a run do not allow it; memory, the queues and the cores are then of no use.
pub fn step_queued(
    listing: &Listing<'_>,
    size: u32,
    stores: u32,
    memory: &mut [u8],
    queues: &mut [Vec<Store>],
    cores: &mut [SerialCore],
    core: u8,
    outcome: Outcome,
) -> bool
    requires size { length memory.old ≡ size }
    requires few { AllByRecursion (λ c. steps_of c + 1 < 2 ^ 64) cores.old }
    requires some { 0 < stores }
    requires count { length queues.old ≡ length cores.old }
    requires queues { AllByRecursion (IsQueue size stores) queues.old }
    ensures step { queue_step (queue_setting listing.now.code size stores) (queued_in memory.old queues.old cores.old)
        core outcome ≡ (if result then Some (queued_in memory.new queues.new cores.new) else None) }
    ensures growth { (most : ℕ) → AllByRecursion (λ c. steps_of c ≤ most) cores.old →
        AllByRecursion (λ c. steps_of c ≤ most + 1) cores.new }
    ensures queues { AllByRecursion (IsQueue size stores) queues.new }
{
    let index = usize::from(core);
    if index >= cores.len() {
        return false;
    }
    let stepping = cores[index];
    match core_queued(
        listing,
        size,
        stores,
        memory,
        &mut queues[index],
        &stepping,
        &outcome,
    ) {
        Some(next) => {
            cores[index] = next;
            true
        }
        None => false,
    }
}
