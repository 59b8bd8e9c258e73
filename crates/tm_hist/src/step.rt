//! One step of a run on one flat memory: whether a core may have this outcome now, and what it is then.
//!
//! [`step`] tries the usual step first, which changes nothing where it is none (`usual`), and then what the rules
//! say of the core as it stands. A step inside a transaction is only counted, and run at the commit by `flat`; at
//! an abort the registers are restored, with the status that the outcome says. Whether a transaction would have
//! been hit or had room is not asked.

ghost use Rattle.std.specs.Prelude.{◌≡◌, ℕ, ◌+◌, ◌<◌, ◌^◌, ◌≤◌, length, map, Some, None, IfSome};
ghost use Rattle.std.specs.Prelude.{if◌then◌else◌};
ghost use Rattle.std.specs.List.{AllByRecursion};
ghost use Rattle.tm_model.specs.Setting.{outside_at, value_at};
ghost use Rattle.tm_model.specs.State.{Closed, Halted, Midway, Opened};
ghost use Rattle.tm_rule.specs.Rule.{StandsAt, outside_of};
ghost use Rattle.tm_model.specs.Steps.{after_load, after_begin, after_plain, after_step_of, after_stop};
ghost use Rattle.tm_model.specs.Steps.{registers_after_abort};
ghost use Rattle.tm_model.specs.Steps.{stop_number};
ghost use Rattle.tm_hist.specs.History.{outcome_of, pair_of};
ghost use Rattle.tm_hist.specs.Serial.{behind_step, core_of, flat_setting, list_step, steps_of};

use crate::flat::{outside_on, outside_with, run_body, value_on};
use crate::pair::{PackedOutcome, Pair};
use crate::serial_core::SerialCore;
use crate::usual::usual_step;
use ia_decode::Decoded;
use ia_regs::Regs;
use tm_core::takes_two_steps;
use tm_model::Outcome;
use tm_quick::Listing;
use tm_rule::{Code, OutsideResult, Stop, fallback, fetch, row};
use tm_whole::memory::write;

/// One instruction outside of transactions that goes on.
pub fn plain_step(
    row: &Decoded,
    code: &Code<'_>,
    size: u32,
    memory: &mut [u8],
    regs: &Regs,
) -> Option<SerialCore>
    requires row { StandsAt code.now.bytes.now code.now.base regs.now.eip row.now }
    requires size { length memory.old ≡ size }
    ensures step { after_plain memory.old (outside_at (flat_setting code.now size) regs.now memory.old)
        ≡ behind_step memory.new result }
    ensures growth { IfSome result (λ c. steps_of c ≤ 1) }
{
    match outside_on(row, code, size, memory, regs) {
        OutsideResult::Goes(next, store) => {
            write(memory, store);
            Some(SerialCore::Closed(next))
        }
        OutsideResult::Begins(_) | OutsideResult::Stops(_) => None,
    }
}

// The first step of an instruction that takes two.
fn load_step(
    row: &Decoded,
    code: &Code<'_>,
    size: u32,
    memory: &[u8],
    regs: &Regs,
) -> Option<SerialCore>
    requires row { StandsAt code.now.bytes.now code.now.base regs.now.eip row.now }
    requires size { length memory.now ≡ size }
    ensures step { after_load memory.now regs.now (value_at (flat_setting code.now size) regs.now memory.now)
        (outside_at (flat_setting code.now size) regs.now memory.now) ≡ behind_step memory.now result }
    ensures growth { IfSome result (λ c. steps_of c ≤ 1) }
{
    match outside_on(row, code, size, memory, regs) {
        OutsideResult::Goes(_, _) => {
            let value = value_on(row, size, memory, regs);
            Some(SerialCore::Midway(*regs, value))
        }
        OutsideResult::Begins(_) | OutsideResult::Stops(_) => None,
    }
}

// The second step of an instruction that takes two, which has loaded this value.
fn store_step(
    row: &Decoded,
    code: &Code<'_>,
    size: u32,
    memory: &mut [u8],
    regs: &Regs,
    value: u32,
) -> Option<SerialCore>
    requires row { StandsAt code.now.bytes.now code.now.base regs.now.eip row.now }
    requires size { length memory.old ≡ size }
    ensures step { after_plain memory.old (outside_of code.now.bytes.now code.now.base size regs.now value)
        ≡ behind_step memory.new result }
    ensures growth { IfSome result (λ c. steps_of c ≤ 1) }
{
    match outside_with(row, code, size, regs, value) {
        OutsideResult::Goes(next, store) => {
            write(memory, store);
            Some(SerialCore::Closed(next))
        }
        OutsideResult::Begins(_) | OutsideResult::Stops(_) => None,
    }
}

// [`store_step`] of what stands at EIP.
fn finish_step(
    code: &Code<'_>,
    size: u32,
    memory: &mut [u8],
    regs: &Regs,
    value: u32,
) -> Option<SerialCore>
    requires { length memory.old ≡ size }
    ensures step { after_plain memory.old (outside_of code.now.bytes.now code.now.base size regs.now value)
        ≡ behind_step memory.new result }
    ensures growth { IfSome result (λ c. steps_of c ≤ 1) }
{
    match row(code, regs.eip) {
        Some(row) => store_step(row, code, size, memory, regs, value),
        None => store_step(&fetch(code, regs.eip), code, size, memory, regs, value),
    }
}

// A number for each stop.
fn number(stop: Stop) -> u8
    ensures { result ≡ stop_number stop }
{
    match stop {
        Stop::Divide => 0,
        Stop::Breakpoint => 1,
        Stop::Undefined => 2,
        Stop::Protection => 3,
        Stop::Halt => 4,
        Stop::Range => 5,
        Stop::CodeStore => 6,
        Stop::Fetch => 7,
        Stop::NotInSubset => 8,
    }
}

/// One instruction outside of transactions that stops for this reason.
pub fn stop_step(
    row: &Decoded,
    code: &Code<'_>,
    size: u32,
    memory: &[u8],
    regs: &Regs,
    stop: Stop,
) -> Option<SerialCore>
    requires row { StandsAt code.now.bytes.now code.now.base regs.now.eip row.now }
    requires size { length memory.now ≡ size }
    ensures step { after_stop memory.now regs.now stop (outside_at (flat_setting code.now size) regs.now memory.now)
        ≡ behind_step memory.now result }
    ensures growth { IfSome result (λ c. steps_of c ≤ 1) }
{
    match outside_on(row, code, size, memory, regs) {
        OutsideResult::Stops(why) => {
            if number(stop) == number(why) {
                Some(SerialCore::Halted(*regs, stop))
            } else {
                None
            }
        }
        OutsideResult::Goes(_, _) | OutsideResult::Begins(_) => None,
    }
}

// An XBEGIN outside of transactions.
fn begin_step(
    row: &Decoded,
    code: &Code<'_>,
    size: u32,
    memory: &[u8],
    regs: &Regs,
) -> Option<SerialCore>
    requires row { StandsAt code.now.bytes.now code.now.base regs.now.eip row.now }
    requires size { length memory.now ≡ size }
    ensures step { after_begin memory.now regs.now (outside_at (flat_setting code.now size) regs.now memory.now)
        ≡ behind_step memory.now result }
    ensures growth { IfSome result (λ c. steps_of c ≤ 1) }
{
    match outside_on(row, code, size, memory, regs) {
        OutsideResult::Begins(_) => Some(SerialCore::Opened(*regs, 1)),
        OutsideResult::Goes(_, _) | OutsideResult::Stops(_) => None,
    }
}

// A step of a core that is in no transaction.
fn closed_step(
    row: &Decoded,
    code: &Code<'_>,
    size: u32,
    memory: &mut [u8],
    regs: &Regs,
    outcome: &Outcome,
) -> Option<SerialCore>
    requires row { StandsAt code.now.bytes.now code.now.base regs.now.eip row.now }
    requires size { length memory.old ≡ size }
    ensures step { after_step_of (flat_setting code.now size) memory.old (Closed regs.now) outcome.now
        ≡ behind_step memory.new result }
    ensures growth { IfSome result (λ c. steps_of c ≤ 1) }
{
    match outcome {
        Outcome::Plain => {
            if takes_two_steps(row) {
                None
            } else {
                plain_step(row, code, size, memory, regs)
            }
        }
        Outcome::Loaded => {
            if takes_two_steps(row) {
                load_step(row, code, size, memory, regs)
            } else {
                None
            }
        }
        Outcome::Stopped(stop) => stop_step(row, code, size, memory, regs, *stop),
        Outcome::Begun => begin_step(row, code, size, memory, regs),
        Outcome::Idle | Outcome::Inside | Outcome::Committed => None,
        Outcome::Aborted(_) | Outcome::AbortedBy(_, _) | Outcome::Drained => None,
    }
}

/// The registers after an abort with this status.
pub fn registers_after_abort(code: &Code<'_>, regs: &Regs, status: u32) -> Regs
    ensures { (size : ℕ) → result ≡ registers_after_abort (flat_setting code.now size) regs.now status }
{
    let mut next = *regs;
    next.set(0, status);
    next.eip = fallback(code, regs);
    next
}

/// A step of a core that has made so many steps since its XBEGIN.
pub fn open_step(
    listing: &Listing<'_>,
    size: u32,
    memory: &mut [u8],
    regs: &Regs,
    steps: u64,
    outcome: &Outcome,
) -> Option<SerialCore>
    requires size { length memory.old ≡ size }
    requires few { steps + 1 < 2 ^ 64 }
    ensures step { after_step_of (flat_setting listing.now.code size) memory.old (Opened regs.now steps) outcome.now
        ≡ behind_step memory.new result }
    ensures growth { IfSome result (λ c. steps_of c ≤ steps + 1) }
{
    let code = &listing.code;
    match outcome {
        Outcome::Inside => Some(SerialCore::Opened(*regs, steps + 1)),
        Outcome::Committed => match run_body(listing, size, memory, regs, steps + 1) {
            Some(regs) => Some(SerialCore::Closed(regs)),
            None => None,
        },
        Outcome::Aborted(status) => Some(SerialCore::Closed(registers_after_abort(
            code, regs, *status,
        ))),
        Outcome::AbortedBy(_interference, status) => Some(SerialCore::Closed(registers_after_abort(
            code, regs, *status,
        ))),
        Outcome::Plain | Outcome::Loaded | Outcome::Stopped(_) | Outcome::Idle | Outcome::Begun =>
            None,
        // Without a store buffer nothing is pending.
        Outcome::Drained => None,
    }
}

// The core after its step of this outcome, where the rules of a run allow that; memory changes with it.
fn core_step(
    listing: &Listing<'_>,
    size: u32,
    memory: &mut [u8],
    core: &SerialCore,
    outcome: &Outcome,
) -> Option<SerialCore>
    requires size { length memory.old ≡ size }
    requires few { steps_of core.now + 1 < 2 ^ 64 }
    ensures step { after_step_of (flat_setting listing.now.code size) memory.old (core_of core.now) outcome.now
        ≡ behind_step memory.new result }
    ensures growth { IfSome result (λ c. steps_of c ≤ steps_of core.now + 1) }
{
    let code = &listing.code;
    match core {
        SerialCore::Closed(regs) => match row(code, regs.eip) {
            Some(row) => closed_step(row, code, size, memory, regs, outcome),
            None => closed_step(&fetch(code, regs.eip), code, size, memory, regs, outcome),
        },
        SerialCore::Opened(regs, steps) => {
            open_step(listing, size, memory, regs, *steps, outcome)
        }
        SerialCore::Midway(regs, value) => match outcome {
            Outcome::Plain => finish_step(code, size, memory, regs, *value),
            _ => None,
        },
        SerialCore::Halted(regs, stop) => match outcome {
            Outcome::Idle => Some(SerialCore::Halted(*regs, *stop)),
            _ => None,
        },
    }
}

// The step of this outcome of a core, where the rules of a run allow that. False where they do not; memory and the core
// are then of no use.
#[inline(never)]
fn other_step(
    listing: &Listing<'_>,
    size: u32,
    memory: &mut [u8],
    core: &mut SerialCore,
    outcome: &PackedOutcome,
) -> bool
    requires size { length memory.old ≡ size }
    requires few { steps_of core.old + 1 < 2 ^ 64 }
    ensures step { after_step_of (flat_setting listing.now.code size) memory.old (core_of core.old)
        (outcome_of outcome.now) ≡ (if result then Some (memory.new, core_of core.new) else None) }
    ensures growth { steps_of core.new ≤ steps_of core.old + 1 }
{
    match core_step(listing, size, memory, core, &outcome.unpacked()) {
        Some(next) => {
            *core = next;
            true
        }
        None => false,
    }
}

/// One step of a run: the pair of a core and its outcome. False where the rules of a run do not allow it.
#[inline(always)]
pub fn step(
    listing: &Listing<'_>,
    size: u32,
    memory: &mut [u8],
    cores: &mut [SerialCore],
    pair: &Pair,
) -> bool
    requires size { length memory.old ≡ size }
    requires few { AllByRecursion (λ c. steps_of c + 1 < 2 ^ 64) cores.old }
    ensures step { list_step (flat_setting listing.now.code size) memory.old (map core_of cores.old)
        (pair_of pair.now).0 (pair_of pair.now).1
        ≡ (if result then Some (memory.new, map core_of cores.new) else None) }
    ensures growth { (most : ℕ) → AllByRecursion (λ c. steps_of c ≤ most) cores.old →
        AllByRecursion (λ c. steps_of c ≤ most + 1) cores.new }
{
    let index = usize::from(pair.core);
    if index >= cores.len() {
        return false;
    }
    let stepping = &mut cores[index];
    if usual_step(listing, memory, stepping, &pair.outcome) {
        return true;
    }
    other_step(listing, size, memory, stepping, &pair.outcome)
}
