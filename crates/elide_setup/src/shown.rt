//! What is printed of a machine: its state lines, the dumps, and the doublewords.
//!
//! [`shown_memory`] comes before the state lines, and refuses with 73 `OutOfRange` whatever passes the memory's end,
//! dumps and doublewords alike: [`show`] then fails only as its device does. Where the parts stand is known already, by
//! the options and the program's symbols (`elide_program`); the same as JSON is `elide_json`'s.

ghost use Rattle.std.specs.Prelude.{◌≡◌, MatchResult, false, length, true};
ghost use Rattle.std.specs.List.{list_all};
ghost use Rattle.text_out.specs.Writing.{Writes};
ghost use Rattle.elide_setup.specs.Shown.{IsShownOf, IsWhole, are_held, doubleword, dump_text, dumps_text};
ghost use Rattle.elide_setup.specs.Shown.{is_dump_held, is_held};
ghost use Rattle.elide_setup.specs.Shown.{is_value_held, parts_text, shown_text, value_line, value_text, values_text};

use crate::fault::{Fault, Refusal};
use elide_program::{Dump, MemoryParts};
use ia_word::Width;
use itoa::Buffer;
use text_out::page::{push, push_eight};
use text_out::text_line::TextLine;
use text_out::{Out, WriteFault};
use tm_core::Machine;
use tm_hist::{write_dump, write_state};
use tm_whole::memory::read;

/// A memory and what is printed of it, all of which it has.
#[derive(Clone, Copy)]
pub struct ShownMemory<'a> {
    bytes: &'a [u8],
    dumps: &'a [Dump],
    // The sums by which the doublewords were asked for, as they were written.
    sums: &'a [&'a str],
    values: &'a [u32],
}

/// The parts of a memory, whose doublewords were asked for by these sums. One that passes the memory's end is refused.
pub fn shown_memory<'a>(
    bytes: &'a [u8],
    parts: &'a MemoryParts,
    sums: &'a [&'a str],
) -> Result<ShownMemory<'a>, Refusal>
    ensures { MatchResult result
        (IsShownOf bytes.entry.now parts.entry.now sums.entry.now)
        (λ refusal. (refusal ≡ Refusal.Fault Fault.OutOfRange)
        × (are_held (length bytes.entry.now) parts.entry.now ≡ false)) }
{
    let dumps = parts.dumps.as_slice();
    let values = parts.values.as_slice();
    if are_dumps_held(bytes.len(), dumps) && are_values_held(bytes.len(), values) {
        Ok(ShownMemory {
            bytes,
            dumps,
            sums,
            values,
        })
    } else {
        Err(Refusal::Fault(Fault::OutOfRange))
    }
}

// Whether a memory of so many bytes has each of the parts.
fn are_dumps_held(size: usize, dumps: &[Dump]) -> bool
    ensures { result ≡ list_all (is_dump_held size) dumps.now }
{
    dumps
        .iter()
        .all(|dump| is_held(size, dump.address, dump.length))
}

// Whether it has each of the doublewords.
fn are_values_held(size: usize, values: &[u32]) -> bool
    ensures { result ≡ list_all (is_value_held size) values.now }
{
    values.iter().all(|address| is_held(size, *address, 4))
}

fn is_held(size: usize, address: u32, length: u32) -> bool
    ensures { result ≡ is_held size address length }
{
    address as usize + length as usize <= size
}

/// The state lines of a machine, and what is printed of its memory: dump lines, and a line for each doubleword.
pub fn show<O: Out>(
    machine: &Machine,
    memory: ShownMemory<'_>,
    out: &mut O,
) -> Result<(), WriteFault>
    requires { IsWhole memory }
    ensures { Writes (O.device out.old) (O.device out.new) (shown_text machine.now memory.entry) result }
{
    write_state(machine, out)?;
    show_memory(memory, out)
}

// What is printed of a memory.
fn show_memory<O: Out>(memory: ShownMemory<'_>, out: &mut O) -> Result<(), WriteFault>
    requires { IsWhole memory }
    ensures { Writes (O.device out.old) (O.device out.new) (parts_text memory.entry) result }
{
    show_dumps(memory.bytes, memory.dumps, out)?;
    show_values(memory.bytes, memory.sums, memory.values, out)
}

// The dump lines of the parts. There are no more of them than words of a command line.
fn show_dumps<O: Out>(bytes: &[u8], dumps: &[Dump], out: &mut O) -> Result<(), WriteFault>
    requires { list_all (is_dump_held (length bytes.now)) dumps.now ≡ true }
    ensures { Writes (O.device out.old) (O.device out.new) (dumps_text bytes.now dumps.now) result }
{
    let [dump, others @ ..] = dumps else {
        return Ok(());
    };
    show_dump(bytes, *dump, out)?;
    show_dumps(bytes, others, out)
}

fn show_dump<O: Out>(bytes: &[u8], dump: Dump, out: &mut O) -> Result<(), WriteFault>
    requires { is_dump_held (length bytes.now) dump ≡ true }
    ensures { Writes (O.device out.old) (O.device out.new) (dump_text bytes.now dump) result }
{
    let start = dump.address as usize;
    let end = start + dump.length as usize;
    write_dump(&bytes[start..end], dump.address, out)
}

// The lines of the doublewords. There are no more of them than words of a command line.
fn show_values<O: Out>(
    bytes: &[u8],
    sums: &[&str],
    values: &[u32],
    out: &mut O,
) -> Result<(), WriteFault>
    requires { list_all (is_value_held (length bytes.now)) values.now ≡ true }
    ensures { Writes (O.device out.old) (O.device out.new) (values_text bytes.now sums.now values.now) result }
{
    let [sum, other_sums @ ..] = sums else {
        return Ok(());
    };
    let [address, others @ ..] = values else {
        return Ok(());
    };
    show_value(bytes, sum, *address, out)?;
    show_values(bytes, other_sums, others, out)
}

fn show_value<O: Out>(bytes: &[u8], sum: &str, address: u32, out: &mut O) -> Result<(), WriteFault>
    requires { is_value_held (length bytes.now) address ≡ true }
    ensures { Writes (O.device out.old) (O.device out.new) (value_line sum.now (doubleword bytes.now address)) result }
{
    let value = read(bytes, address, Width::D);
    out.put(sum.as_bytes())?;
    show_number(value, out)
}

// A number behind what it is of.
fn show_number<O: Out>(value: u32, out: &mut O) -> Result<(), WriteFault>
    ensures { Writes (O.device out.old) (O.device out.new) (value_text value) result }
{
    let mut digits = Buffer::new();
    let mut row = TextLine::new();
    push(&mut row, b"=");
    push_eight(&mut row, value);
    push(&mut row, b" ");
    push(&mut row, digits.format(value).as_bytes());
    push(&mut row, b"\n");
    out.put(row.as_slice())?;
    Ok(())
}
