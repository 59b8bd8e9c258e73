//! What is shown of a memory: dumps, and behind them doublewords.
//!
//! [`Rows::of_memory`] comes first, and makes all rows: the first that passes the memory's end is refused with 73
//! `OutOfRange`, before a byte is sent. [`send_dumps`] and [`send_shows`] send them. Where a sum leads to was found out
//! when the program was loaded; the text that asked for it is told as it was given.

ghost use Rattle.std.specs.Prelude.{◌≡◌, ◌+◌, IfErr, IfOk, OnOk, codes, false, length, map};
ghost use Rattle.std.specs.List.{list_all, zip};
ghost use Rattle.elide_object.specs.Object.{SendsMember, list_value};
ghost use Rattle.elide_setup.specs.Shown.{are_held, doubleword, is_dump_held, is_value_held};
ghost use Rattle.serde_json.specs.Events.{SendsValue};
ghost use Rattle.elide_json.specs.Memory.{AreRowsOf, dump_at, dump_row, show_at, show_row, show_value};
ghost use Rattle.elide_json.specs.Refused.{IsNoRow};

use elide_object::{send_number, send_text};
use elide_program::{Dump, MemoryParts, add};
use elide_setup::{Fault, Refusal};
use ia_word::Width;
use serde::Serializer;
use std::alloc::Global;
use tm_whole::memory::read;

/// A part of a memory.
#[derive(Drop)]
pub struct DumpRow {
    /// The address of its first byte.
    pub address: u32,
    /// Its bytes in hex.
    pub digits: String,
}

/// A doubleword of a memory.
#[derive(Drop)]
pub struct ShowRow {
    /// The text that asked for it.
    pub at: String,
    /// Its address.
    pub address: u32,
    /// What it holds.
    pub value: u32,
}

/// What is shown of a memory, in the order of the command line.
#[derive(Drop)]
pub struct Rows {
    /// The parts.
    pub dumps: Vec<DumpRow>,
    /// The doublewords.
    pub shows: Vec<ShowRow>,
}

impl Rows {
    /// Those of a memory, whose doublewords were asked for by these texts. Refused where one passes the memory's end,
    /// and for want of memory.
    pub fn of_memory(
        alloc: Global,
        memory: &[u8],
        parts: &MemoryParts,
        texts: &[&str],
    ) -> Result<Rows, Refusal>
        ensures rows { IfOk result (AreRowsOf memory.now parts.now texts.now) }
        ensures refused { IfErr result (IsNoRow (are_held (length memory.now) parts.now)) }
    {
        let dumps = dump_rows(alloc, memory, parts.dumps.as_slice())?;
        let shows = show_rows(alloc, memory, texts, parts.values.as_slice())?;
        Ok(Rows { dumps, shows })
    }
}

fn dump_rows(alloc: Global, memory: &[u8], dumps: &[Dump]) -> Result<Vec<DumpRow>, Refusal>
    ensures rows { IfOk result (λ rows. map dump_row rows.items ≡ map (dump_at memory.now) dumps.now) }
    ensures refused { IfErr result (IsNoRow (list_all (is_dump_held (length memory.now)) dumps.now)) }
{
    let mut rows = Vec::new(alloc);
    for dump in dumps {
        let row = row_of_dump(alloc, memory, *dump)?;
        add(&mut rows, row)?;
    }
    Ok(rows)
}

fn row_of_dump(alloc: Global, memory: &[u8], dump: Dump) -> Result<DumpRow, Refusal>
    ensures row { IfOk result (λ row. dump_row row ≡ dump_at memory.now dump) }
    ensures refused { IfErr result (IsNoRow (is_dump_held (length memory.now) dump)) }
{
    let start = dump.address as usize;
    let end = start + dump.length as usize;
    if end > memory.len() {
        return Err(Refusal::Fault(Fault::OutOfRange));
    }
    let digits = hex::encode(alloc, &memory[start..end])?;
    Ok(DumpRow {
        address: dump.address,
        digits,
    })
}

fn show_rows(
    alloc: Global,
    memory: &[u8],
    texts: &[&str],
    addresses: &[u32],
) -> Result<Vec<ShowRow>, Refusal>
    ensures rows { IfOk result
        (λ rows. map show_row rows.items ≡ map (show_at memory.now) (zip texts.now addresses.now)) }
    ensures refused { IfErr result (IsNoRow (list_all (is_value_held (length memory.now)) addresses.now)) }
{
    let mut rows = Vec::new(alloc);
    for index in 0..texts.len().min(addresses.len()) {
        let row = row_of_show(alloc, memory, texts[index], addresses[index])?;
        add(&mut rows, row)?;
    }
    Ok(rows)
}

fn row_of_show(alloc: Global, memory: &[u8], text: &str, address: u32) -> Result<ShowRow, Refusal>
    ensures row { IfOk result (λ row. show_row row ≡ show_value text.now address (doubleword memory.now address)) }
    ensures refused { IfErr result (IsNoRow (is_value_held (length memory.now) address)) }
{
    let at = String::from_str(alloc, text)?;
    let value = value_at(memory, address)?;
    Ok(ShowRow { at, address, value })
}

fn value_at(memory: &[u8], address: u32) -> Result<u32, Refusal>
    ensures value { IfOk result (λ value. value ≡ doubleword memory.now address) }
    ensures refused { IfErr result (λ why. (why ≡ Refusal.Fault Fault.OutOfRange)
        × (is_value_held (length memory.now) address ≡ false)) }
{
    if address as usize + 4 > memory.len() {
        return Err(Refusal::Fault(Fault::OutOfRange));
    }
    Ok(read(memory, address, Width::D))
}

/// Sends the parts of a memory.
pub fn send_dumps<S: Serializer>(rows: &[DumpRow], out: &mut S) -> Result<(), S::Error>
    ensures { OnOk result
        (SendsMember (codes "dump") (list_value dump_row rows.now) (S.written out.old) (S.written out.new)) }
{
    out.key("dump")?;
    send_dump_list(rows, out)
}

fn send_dump_list<S: Serializer>(rows: &[DumpRow], out: &mut S) -> Result<(), S::Error>
    ensures { OnOk result (SendsValue (list_value dump_row rows.now) (S.written out.old) (S.written out.new)) }
{
    out.begin_seq(Some(rows.len()))?;
    for row in rows {
        send_dump(row, out)?;
    }
    out.end_seq()
}

fn send_dump<S: Serializer>(row: &DumpRow, out: &mut S) -> Result<(), S::Error>
    ensures { OnOk result (SendsValue (dump_row row.now) (S.written out.old) (S.written out.new)) }
{
    out.begin_map(Some(2))?;
    send_number("address", u64::from(row.address), out)?;
    send_text("bytes", row.digits.as_str(), out)?;
    out.end_map()
}

/// Sends the doublewords of a memory.
pub fn send_shows<S: Serializer>(rows: &[ShowRow], out: &mut S) -> Result<(), S::Error>
    ensures { OnOk result
        (SendsMember (codes "show") (list_value show_row rows.now) (S.written out.old) (S.written out.new)) }
{
    out.key("show")?;
    send_show_list(rows, out)
}

fn send_show_list<S: Serializer>(rows: &[ShowRow], out: &mut S) -> Result<(), S::Error>
    ensures { OnOk result (SendsValue (list_value show_row rows.now) (S.written out.old) (S.written out.new)) }
{
    out.begin_seq(Some(rows.len()))?;
    for row in rows {
        send_show(row, out)?;
    }
    out.end_seq()
}

fn send_show<S: Serializer>(row: &ShowRow, out: &mut S) -> Result<(), S::Error>
    ensures { OnOk result (SendsValue (show_row row.now) (S.written out.old) (S.written out.new)) }
{
    out.begin_map(Some(3))?;
    send_text("at", row.at.as_str(), out)?;
    send_number("address", u64::from(row.address), out)?;
    send_number("value", u64::from(row.value), out)?;
    out.end_map()
}
