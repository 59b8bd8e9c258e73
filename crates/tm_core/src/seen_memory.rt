//! Memory as a core sees it, for whoever only reads: [`SeenMemory`].
//!
//! Each byte is that of the newest store of the core that is pending there, and else memory's (SDM volume 3, 9.2.3.5).
//! Nothing is written for that; a step is made on memory over which the stores are laid (`laid`).

ghost use Rattle.std.specs.Prelude.{◌≡◌, ◌+◌, ◌^◌, ◌<◌, ◌≤◌, All, IfSome, ℕ, List, length, slice_index, []};
ghost use Rattle.ia_word.specs.Operand.{operand_bytes, operand_of};
ghost use Rattle.ia_word.specs.Width.{bits_of, bytes_of};
ghost use Rattle.tm_model.specs.Access.{addresses_of, bytes_at, loaded_addresses, loaded_value};
ghost use Rattle.tm_model.specs.State.{seen_memory, with_store};
ghost use Rattle.tm_core.specs.StoreBuffers.{IsStorable};

use ia_addr::Access;
use ia_exec::Store;
use ia_word::{Width, from_le, le_bytes};
use std::marker::Model;

/// Memory with a core's pending stores over it, the oldest first.
#[derive(Drop)]
pub struct SeenMemory<'a> {
    memory: &'a [u8],
    pending: &'a [Store],
}

impl<'a> Model for SeenMemory<'a> {
    ghost use Rattle.std.specs.Prelude.{All, List, ℕ, length};
    ghost use Rattle.std.specs.Coded.{coded_list, coded_ℕ};
    ghost use Rattle.tm_model.specs.State.{seen_memory};
    ghost use Rattle.tm_core.specs.StoreBuffers.{IsStorable};

    ghost Value = { List ℕ };

    ghost coded = { coded_list coded_ℕ };

    ghost view = { λ a. seen_memory a.memory.now a.pending.now };

    ghost invariant = { λ a. All (IsStorable (length a.memory.now)) a.pending.now };
}

// The byte at an address, where memory has this one there before the store.
fn byte_behind(store: Store, address: u32, byte: u8) -> u8
    requires { store.value < 2 ^ bits_of store.width }
    ensures { (memory : List ℕ) → address < length memory → byte ≡ slice_index memory address →
        result ≡ slice_index (with_store memory store) address }
{
    if address < store.addr {
        return byte;
    }
    let place = address - store.addr;
    if place >= store.width.bytes() {
        return byte;
    }
    match store.width {
        Width::B => store.value as u8,
        Width::D => le_bytes(store.value)[place as usize],
    }
}

// The size of memory in bytes.
fn size_of(memory: &[u8]) -> u32
    requires { length memory.now < 2 ^ 32 }
    ensures { result ≡ length memory.now }
{
    memory.len() as u32
}

// The byte at an address of memory with these stores over it.
fn byte_under(memory: &[u8], stores: &[Store], address: u32) -> u8
    requires within { address < length memory.now }
    requires storable { All (IsStorable (length memory.now)) stores.now }
    ensures { result ≡ slice_index (seen_memory memory.now stores.now) address }
{
    let mut byte = memory[address as usize];
    for store in stores {
        byte = byte_behind(*store, address, byte);
    }
    byte
}

impl<'a> SeenMemory<'a> {
    /// Memory with these stores over it.
    pub fn of(memory: &'a [u8], pending: &'a [Store]) -> SeenMemory<'a>
        requires { All (IsStorable (length memory.now)) pending.now }
        ensures { result ≡ seen_memory memory.now pending.now }
    {
        SeenMemory { memory, pending }
    }

    /// Its size in bytes.
    pub fn size(&self) -> u32
        requires { length self.now < 2 ^ 32 }
        ensures { result ≡ length self.now }
    {
        size_of(self.memory)
    }

    /// Memory itself, where nothing lies over it.
    pub fn whole(&self) -> Option<&'a [u8]>
        ensures { IfSome result (λ memory. memory.now ≡ self.now) }
    {
        if self.pending.is_empty() {
            Some(self.memory)
        } else {
            None
        }
    }

    /// The byte at an address.
    pub fn byte(&self, address: u32) -> u8
        requires { address < length self.now }
        ensures { result ≡ slice_index self.now address }
    {
        byte_under(self.memory, self.pending, address)
    }

    /// The value at an address.
    pub fn read(&self, addr: u32, width: Width) -> u32
        requires within { addr + bytes_of width ≤ length self.now }
        requires small { length self.now < 2 ^ 32 }
        ensures value { result ≡ operand_of width (bytes_at self.now (addresses_of addr width)) }
        ensures bytes { operand_bytes width result ≡ bytes_at self.now (addresses_of addr width) }
        ensures fits { result < 2 ^ bits_of width }
    {
        match width {
            Width::B => u32::from(self.byte(addr)),
            Width::D => from_le([
                self.byte(addr),
                self.byte(addr + 1),
                self.byte(addr + 2),
                self.byte(addr + 3),
            ]),
        }
    }

    /// What an instruction loads; nothing counts as 0.
    pub fn load(&self, access: Option<Access>) -> u32
        requires within { IfSome access (λ a. a.addr + bytes_of a.width ≤ length self.now) }
        requires small { length self.now < 2 ^ 32 }
        ensures { result ≡ loaded_value access (bytes_at self.now (loaded_addresses access)) }
    {
        match access {
            Some(a) => self.read(a.addr, a.width),
            None => 0,
        }
    }
}
