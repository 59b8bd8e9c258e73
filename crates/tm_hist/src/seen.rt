//! What a core sees of memory: the newest of its pending stores to a byte, or else memory (SDM volume 3, 9.2.3.5).
//!
//! [`value_seen`] answers a load byte by byte, each from memory and then from the pending stores, the oldest first.
//! Nothing is written: a store reaches memory in `queued`.

ghost use Rattle.std.specs.Prelude.{◌≡◌, ◌+◌, ◌<◌, ◌≤◌, ◌^◌, ℕ, List, All, length, slice_index};
ghost use Rattle.ia_word.specs.Operand.{operand_of};
ghost use Rattle.ia_word.specs.Width.{bytes_of};
ghost use Rattle.tm_model.specs.Access.{addresses_of, bytes_at};
ghost use Rattle.tm_model.specs.State.{seen_memory, with_store};
ghost use Rattle.tm_hist.specs.Queues.{IsStorable};

use ia_exec::Store;
use ia_word::{Width, from_le, le_bytes};

// The byte at an address after a store of a byte.
fn byte_after_byte(byte: u8, at: usize, store: Store) -> u8
    requires width { store.width ≡ Width.B }
    requires value { store.value < 2 ^ 8 }
    ensures { (memory : List ℕ) → store.addr < length memory → byte ≡ slice_index memory at →
        result ≡ slice_index (with_store memory store) at }
{
    if at == store.addr as usize {
        store.value as u8
    } else {
        byte
    }
}

// The byte at an address after a store of a doubleword.
fn byte_after_word(byte: u8, at: usize, store: Store) -> u8
    requires width { store.width ≡ Width.D }
    ensures { (memory : List ℕ) → store.addr + 4 ≤ length memory → byte ≡ slice_index memory at →
        result ≡ slice_index (with_store memory store) at }
{
    let first = store.addr as usize;
    if at < first {
        return byte;
    }
    let bytes = le_bytes(store.value);
    match at - first {
        0 => bytes[0],
        1 => bytes[1],
        2 => bytes[2],
        3 => bytes[3],
        _ => byte,
    }
}

// The byte at an address after a store.
fn byte_after(byte: u8, at: usize, store: Store, size: usize) -> u8
    requires { IsStorable size store }
    ensures { (memory : List ℕ) → size ≤ length memory → byte ≡ slice_index memory at →
        result ≡ slice_index (with_store memory store) at }
{
    match store.width {
        Width::B => byte_after_byte(byte, at, store),
        Width::D => byte_after_word(byte, at, store),
    }
}

// The byte at an address as the core sees it.
fn byte_seen(memory: &[u8], pending: &[Store], at: usize) -> u8
    requires within { at < length memory.now }
    requires stores { All (IsStorable (length memory.now)) pending.now }
    ensures { result ≡ slice_index (seen_memory memory.now pending.now) at }
{
    let mut byte = memory[at];
    for store in pending {
        byte = byte_after(byte, at, *store, memory.len());
    }
    byte
}

/// The value at an address as the core sees it.
pub fn value_seen(memory: &[u8], pending: &[Store], addr: u32, width: Width) -> u32
    requires within { addr + bytes_of width ≤ length memory.now }
    requires stores { All (IsStorable (length memory.now)) pending.now }
    ensures { result ≡ operand_of width (bytes_at (seen_memory memory.now pending.now) (addresses_of addr width)) }
{
    let at = addr as usize;
    match width {
        Width::B => u32::from(byte_seen(memory, pending, at)),
        Width::D => from_le([
            byte_seen(memory, pending, at),
            byte_seen(memory, pending, at + 1),
            byte_seen(memory, pending, at + 2),
            byte_seen(memory, pending, at + 3),
        ]),
    }
}
