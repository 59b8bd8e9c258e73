//! The tests that make a program of an image.

ghost use Rattle.std.specs.Prelude.{◌≡◌, ◌+◌, ◌≤◌, length, nat_lt};
ghost use Rattle.std.specs.List.{list_any};
ghost use Rattle.ia_image.specs.Load.{Loads, bad_cores, bad_memory_size, load_refusal, outside_code};

use crate::decoding::decode_code;
use crate::fault::LoadFault;
use crate::program::{MOST_CORES, Program, entry_row};
use std::alloc::Global;

/// The largest memory: 256 MiB.
const MOST_MEMORY: u32 = 268_435_456;

/// What a stack takes, and the unit of the memory size.
const PAGE: u32 = 4096;

fn has_bad_cores(entries: &[u32]) -> bool
    ensures { result ≡ bad_cores (length entries.now) }
{
    entries.is_empty() || entries.len() > MOST_CORES
}

fn has_bad_memory_size(mem_size: u32, cores: u32) -> bool
    requires { cores ≤ 64 }
    ensures { result ≡ bad_memory_size mem_size cores }
{
    mem_size % PAGE != 0 || mem_size < PAGE * (cores + 1) || mem_size > MOST_MEMORY
}

fn is_too_large(bytes: &[u8], base: u32, mem_size: u32) -> bool
    ensures { result ≡ nat_lt mem_size (base + length bytes.now) }
{
    u64::from(mem_size) < u64::from(base) + bytes.len() as u64
}

fn is_outside_code(base: u32, code_len: u32, entry: u32) -> bool
    ensures { result ≡ outside_code base code_len entry }
{
    entry < base || u64::from(base) + u64::from(code_len) <= u64::from(entry)
}

fn has_entry_outside_code(base: u32, code_len: u32, entries: &[u32]) -> bool
    ensures { result ≡ list_any (outside_code base code_len) entries.now }
{
    entries
        .iter()
        .any(|entry| is_outside_code(base, code_len, *entry))
}

// The first test that fails.
#[tactic(auto, unfolding(crate::specs::Load::load_refusal))]
fn refusal(
    bytes: &[u8],
    base: u32,
    code_len: u32,
    mem_size: u32,
    entries: &[u32],
) -> Option<LoadFault>
    ensures { result ≡ load_refusal bytes.now base code_len mem_size entries.now }
{
    if bytes.is_empty() {
        return Some(LoadFault::Empty);
    }
    if has_bad_cores(entries) {
        return Some(LoadFault::BadCores);
    }
    if has_bad_memory_size(mem_size, entries.len() as u32) {
        return Some(LoadFault::BadMemorySize);
    }
    if is_too_large(bytes, base, mem_size) {
        return Some(LoadFault::TooLarge);
    }
    if bytes.len() < code_len as usize {
        return Some(LoadFault::CodeTooLong);
    }
    if has_entry_outside_code(base, code_len, entries) {
        return Some(LoadFault::EntryOutsideCode);
    }
    None
}

/// The program of an image whose first byte lies at `base`, whose first `code_len` bytes are code, in a memory of
/// `mem_size` bytes that is zero elsewhere, with a core for each entry.
///
/// The tests are made in this order: 20 `Empty`, 23 `BadCores`, 22 `BadMemorySize`, 21 `TooLarge`, 25 `CodeTooLong`,
/// 24 `EntryOutsideCode`, 26 `NoMemory`.
pub fn load(
    alloc: Global,
    bytes: &[u8],
    base: u32,
    code_len: u32,
    mem_size: u32,
    entries: &[u32],
) -> Result<Program, LoadFault>
    ensures tests { Loads (load_refusal bytes.now base code_len mem_size entries.now)
        (record {
          bytes = bytes.now;
          base = base;
          code_len = code_len;
          mem_size = mem_size;
          entries = entries.now;
        })
        result }
{
    if let Some(fault) = refusal(bytes, base, code_len, mem_size, entries) {
        return Err(fault);
    }
    let decoded = decode_code(alloc, &bytes[..code_len as usize])?;
    let bytes = Vec::from_slice(alloc, bytes)?;
    Ok(Program {
        rows: decoded.rows,
        lines: decoded.lines,
        bytes,
        base,
        code_len,
        mem_size,
        entries: entry_row(entries),
    })
}
