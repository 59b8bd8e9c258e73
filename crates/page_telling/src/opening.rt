//! The machine as it is before the first step of a page.
//!
//! [`put_opening`] writes, in this order, registers and states, the transactions that are open, the stores that are
//! pending, where some are, and the lines of memory that a step uses and that are not zero. It is made in memory and
//! looked at as one piece before it goes out. When its moment has come is said in `telling`.

ghost use Rattle.std.specs.Prelude.{IfErr, OnOk};
ghost use Rattle.elide_setup.specs.Refused.{IsUntold};
ghost use Rattle.page_run.specs.Plain.{WrotePlain};

use crate::kept::Kept;
use elide_setup::{Fault, Refusal};
use page_run::{LINE, UsedLine, put_piece};
use page_steps::{register_values, store_numbers, write_numbers, write_state, write_stored};
use page_text::{write_comma, write_hex, write_number};
use std::alloc::{AllocError, Global};
use text_out::page::{Page, push_hex};
use text_out::{Out, ToVec, WriteFault};
use tm_core::{Machine, RunFault};
use tm_model::CoreState;
use tm_page::StoredByte;
use tm_sets::Kind;
use tm_why::{Asked, Watch};

/// What is known of a machine's open transactions beside what it shows.
#[derive(Drop)]
pub struct Behind {
    /// The addresses at which they keep bytes.
    pub kept: Kept,
    /// When they began, and who condemned them.
    pub watch: Watch,
}

/// Writes the registers and states of the cores, their transactions, their stores that are pending, and the lines of
/// memory that were used and are not zero; and the beginning of the list of steps.
pub fn put_opening<O: Out>(
    alloc: Global,
    machine: &Machine,
    behind: &Behind,
    lines: &[UsedLine],
    out: &mut O,
) -> Result<(), Refusal>
    ensures text { OnOk result (WrotePlain (O.device out.old) (O.device out.new)) }
    ensures refused { IfErr result IsUntold }
{
    let mut piece = ToVec::new(Vec::new(alloc));
    let made = write_opening(alloc, machine, behind, lines, &mut piece);
    put_piece(made, &piece, out)
}

fn write_opening<O: Out>(
    alloc: Global,
    machine: &Machine,
    behind: &Behind,
    lines: &[UsedLine],
    out: &mut O,
) -> Result<(), Refusal>
    ensures { IfErr result IsUntold }
{
    out.put(b",\n\"opening\":[")?;
    write_registers(machine, out)?;
    out.put(b"],\n\"states\":[")?;
    write_states(machine, out)?;
    out.put(b"],\n\"open\":{")?;
    write_transactions(alloc, machine, behind, out)?;
    out.put(b"}")?;
    write_pending(machine, out)?;
    out.put(b",\n\"bytes\":{")?;
    write_bytes(machine, lines, out)?;
    out.put(b"},\n\"steps\":[")?;
    Ok(())
}

fn write_registers<O: Out>(machine: &Machine, out: &mut O) -> Result<(), WriteFault> {
    for core in 0..machine.cores() {
        write_comma(core > 0, out)?;
        if let Ok(regs) = machine.regs(core) {
            write_numbers(register_values(&regs).as_slice(), out)?;
        }
    }
    Ok(())
}

fn write_states<O: Out>(machine: &Machine, out: &mut O) -> Result<(), WriteFault> {
    for core in 0..machine.cores() {
        write_comma(core > 0, out)?;
        if let Ok(state) = machine.state(core) {
            write_state(state, out)?;
        }
    }
    Ok(())
}

// The transactions that have not ended.
fn write_transactions<O: Out>(
    alloc: Global,
    machine: &Machine,
    behind: &Behind,
    out: &mut O,
) -> Result<(), Refusal>
    ensures { IfErr result IsUntold }
{
    let mut some = false;
    for core in 0..machine.cores() {
        if has_transaction(machine, core) {
            write_comma(some, out)?;
            some = true;
            write_transaction(alloc, machine, behind, core, out)?;
        }
    }
    Ok(())
}

// Whether a core has a transaction that has not ended, condemned or not.
fn has_transaction(machine: &Machine, core: u8) -> bool {
    matches!(
        machine.state(core),
        Ok(CoreState::Open(_) | CoreState::Condemned(_))
    )
}

fn write_transaction<O: Out>(
    alloc: Global,
    machine: &Machine,
    behind: &Behind,
    core: u8,
    out: &mut O,
) -> Result<(), Refusal>
    ensures { IfErr result IsUntold }
{
    out.put(b"\"")?;
    write_number(u64::from(core), out)?;
    out.put(b"\":{\"b\":")?;
    if let Ok(regs) = machine.base_regs(core) {
        write_numbers(register_values(&regs).as_slice(), out)?;
    }
    out.put(b",\"r\":")?;
    write_set(alloc, machine, core, Kind::Read, out)?;
    out.put(b",\"w\":")?;
    write_set(alloc, machine, core, Kind::Write, out)?;
    out.put(b",\"t\":")?;
    let kept = behind.kept.of(alloc, core)?;
    write_private(alloc, machine, core, kept.as_slice(), out)?;
    write_doom(machine, core, &behind.watch, out)?;
    out.put(b"}")?;
    Ok(())
}

// The lines of a set of a core that the machine has.
fn write_set<O: Out>(
    alloc: Global,
    machine: &Machine,
    core: u8,
    kind: Kind,
    out: &mut O,
) -> Result<(), Refusal>
    ensures { IfErr result IsUntold }
{
    match machine.sets(alloc, core, kind) {
        Ok(lines) => {
            write_numbers(lines.as_slice(), out)?;
            Ok(())
        }
        Err(_) => Err(Refusal::Fault(Fault::Run(RunFault::NoMemory))),
    }
}

// The bytes that an open transaction keeps at these addresses; a doomed one keeps none.
fn write_private<O: Out>(
    alloc: Global,
    machine: &Machine,
    core: u8,
    kept: &[u64],
    out: &mut O,
) -> Result<(), Refusal>
    ensures { IfErr result IsUntold }
{
    let bytes = match machine.state(core) {
        Ok(CoreState::Open(_)) => private_bytes(alloc, machine, core, kept)?,
        _ => Vec::new(alloc),
    };
    write_stored(bytes.as_slice(), out)?;
    Ok(())
}

fn private_bytes(
    alloc: Global,
    machine: &Machine,
    core: u8,
    kept: &[u64],
) -> Result<Vec<StoredByte>, AllocError> {
    let mut bytes = Vec::new(alloc);
    for address in kept {
        if let Some(byte) = seen_at(machine, core, *address) {
            bytes.push(byte)?;
        }
    }
    Ok(bytes)
}

// The byte that a core sees at an address of memory.
fn seen_at(machine: &Machine, core: u8, address: u64) -> Option<StoredByte> {
    let place = u32::try_from(address).ok()?;
    if address >= machine.view().len() as u64 {
        return None;
    }
    match machine.seen(core, place) {
        Ok(byte) => Some(StoredByte { address, byte }),
        Err(_) => None,
    }
}

// By which line a doomed transaction was hit, how, and by whom.
fn write_doom<O: Out>(
    machine: &Machine,
    core: u8,
    watch: &Watch,
    out: &mut O,
) -> Result<(), WriteFault> {
    let Ok(CoreState::Condemned(_)) = machine.state(core) else {
        return Ok(());
    };
    let Ok(asked) = Asked::of(machine, core) else {
        return Ok(());
    };
    let Some(reason) = watch.reason(&asked) else {
        return Ok(());
    };
    let Some(standing) = reason.transaction.hit else {
        return Ok(());
    };
    out.put(b",\"d\":")?;
    write_numbers(
        &[
            standing.hit.line,
            u32::from(standing.hit.kind == Kind::Write),
            u32::from(standing.core),
        ],
        out,
    )
}

// The stores that are pending, by their cores; nothing, where none is.
fn write_pending<O: Out>(machine: &Machine, out: &mut O) -> Result<(), WriteFault> {
    let mut some = false;
    for core in 0..machine.cores() {
        if has_pending(machine, core) {
            out.put(pending_front(some))?;
            some = true;
            write_stores(machine, core, out)?;
        }
    }
    if some {
        out.put(b"}")?;
    }
    Ok(())
}

// Whether a store of a core is pending.
fn has_pending(machine: &Machine, core: u8) -> bool {
    match machine.pending(core) {
        Ok(stores) => !stores.is_empty(),
        Err(_) => false,
    }
}

// What stands before a core's stores: the member's name, or a comma.
fn pending_front(some: bool) -> &'static [u8] {
    if some { b"," } else { b",\n\"pending\":{" }
}

// A core's stores that are pending, the oldest first.
fn write_stores<O: Out>(machine: &Machine, core: u8, out: &mut O) -> Result<(), WriteFault> {
    out.put(b"\"")?;
    write_number(u64::from(core), out)?;
    out.put(b"\":[")?;
    if let Ok(stores) = machine.pending(core) {
        for index in 0..stores.len() {
            write_comma(index > 0, out)?;
            write_numbers(&store_numbers(stores[index]), out)?;
        }
    }
    out.put(b"]")?;
    Ok(())
}

// The lines of memory that were used and are not zero.
fn write_bytes<O: Out>(
    machine: &Machine,
    lines: &[UsedLine],
    out: &mut O,
) -> Result<(), WriteFault> {
    let memory = machine.view();
    let mut some = false;
    for index in 0..lines.len() {
        let bytes = line_at(memory, index);
        if lines[index].touched && bytes.iter().any(|byte| *byte != 0) {
            write_comma(some, out)?;
            some = true;
            write_line(index, bytes, out)?;
        }
    }
    Ok(())
}

// The bytes of a line, those that memory has.
fn line_at(memory: &[u8], index: usize) -> &[u8] {
    let start = index.saturating_mul(LINE).min(memory.len());
    let end = start.saturating_add(LINE).min(memory.len());
    &memory[start..end]
}

fn write_line<O: Out>(index: usize, bytes: &[u8], out: &mut O) -> Result<(), WriteFault> {
    let mut number = Page::new();
    push_hex(&mut number, u32::try_from(index).unwrap_or(0));
    out.put(b"\n\"")?;
    out.put(number.as_slice())?;
    out.put(b"\":")?;
    write_hex(bytes, out)
}
