//! Bytes that a step stored, read behind it: memory's, or those that its core sees.
//!
//! [`accessed_bytes`] and [`memory_bytes`] are for what all cores see, [`drained_bytes`] among them for a store that
//! has just reached memory, and [`private_bytes`] for a step in a transaction. An address outside of memory gives no
//! byte. Which of them a step's outcome asks for stands in `difference`.

ghost use Rattle.std.specs.Prelude.{◌≡◌, ◌<◌, ℕ, IfOk, OnOk, Some, None, if◌then◌else◌, length, nat_eq, slice_index};
ghost use Rattle.tm_core.specs.Seen.{byte_seen};
ghost use Rattle.tm_model.specs.Access.{loaded_addresses, stored_addresses, stores_of};
ghost use Rattle.std.specs.Option.{option_or};
ghost use Rattle.tm_page.specs.Applied.{is_listed, stored_at};
ghost use Rattle.tm_page.specs.Shows.{IsAddress};

use crate::delta::StoredByte;
use arrayvec::ArrayVec;
use ia_addr::Access;
use ia_exec::Store;
use ia_word::Width;
use std::alloc::{AllocError, Global};
use tm_core::Machine;

/// The addresses of the bytes of an access.
pub fn addresses_of(access: Option<Access>) -> ArrayVec<u64, 4>
    ensures { result.items ≡ loaded_addresses access }
{
    let mut row = ArrayVec::new();
    if let Some(access) = access {
        let first = u64::from(access.addr);
        row.push(first);
        match access.width {
            Width::B => {}
            Width::D => {
                row.push(first + 1);
                row.push(first + 2);
                row.push(first + 3);
            }
        }
    }
    row
}

/// The bytes of memory at these addresses, of those that lie in it.
pub fn memory_bytes(
    alloc: Global,
    memory: &[u8],
    addresses: &[u64],
) -> Result<Vec<StoredByte>, AllocError>
    ensures { IfOk result
        (λ bytes. (address : ℕ) → IsAddress (length memory.now) address → stored_at bytes.items address
        ≡ (if is_listed addresses.now address then Some (slice_index memory.now address) else None)) }
{
    let mut bytes = Vec::new(alloc);
    for index in 0..addresses.len() {
        put_byte(&mut bytes, memory, addresses[index])?;
    }
    Ok(bytes)
}

/// The bytes of memory that an access reaches, of those that lie in it.
pub fn accessed_bytes(
    alloc: Global,
    memory: &[u8],
    access: Option<Access>,
) -> Result<Vec<StoredByte>, AllocError>
    ensures { IfOk result
        (λ bytes. (address : ℕ) → IsAddress (length memory.now) address → stored_at bytes.items address
        ≡ (if is_listed (loaded_addresses access) address then Some (slice_index memory.now address) else None)) }
{
    let addresses = addresses_of(access);
    memory_bytes(alloc, memory, addresses.as_slice())
}

/// The bytes of memory that a store put there, of those that lie in it.
pub fn drained_bytes(
    alloc: Global,
    memory: &[u8],
    store: Option<Store>,
) -> Result<Vec<StoredByte>, AllocError>
    ensures { IfOk result
        (λ bytes. (address : ℕ) → IsAddress (length memory.now) address → stored_at bytes.items address
        ≡ (if is_listed (stored_addresses (stores_of store)) address
        then Some (slice_index memory.now address)
        else None)) }
{
    accessed_bytes(alloc, memory, access_of(store))
}

// The bytes that a store reaches.
fn access_of(store: Option<Store>) -> Option<Access>
    ensures { loaded_addresses result ≡ stored_addresses (stores_of store) }
{
    let store = store?;
    Some(Access {
        addr: store.addr,
        width: store.width,
    })
}

// Adds the byte of memory at an address, where it lies in it.
#[tactic(auto, using(crate::proofs::Lists::byte_stays))]
fn put_byte(bytes: &mut Vec<StoredByte>, memory: &[u8], address: u64) -> Result<(), AllocError>
    ensures { OnOk result ((at : ℕ) → IsAddress (length memory.now) at → stored_at bytes.new.items at
        ≡ option_or (stored_at bytes.old.items at)
        (if nat_eq at address then Some (slice_index memory.now at) else None)) }
{
    if address >= memory.len() as u64 {
        return Ok(());
    }
    let byte = memory[address as usize];
    bytes.push(StoredByte { address, byte })?;
    Ok(())
}

/// The bytes that a core sees at these addresses, of those that lie in memory.
pub fn seen_bytes(
    alloc: Global,
    machine: &Machine,
    core: u8,
    addresses: &[u64],
) -> Result<Vec<StoredByte>, AllocError>
    requires { core < length machine.now.views }
    ensures { IfOk result (λ bytes. (address : ℕ) → IsAddress (length machine.now.memory) address →
        stored_at bytes.items address
        ≡ (if is_listed addresses.now address then Some (byte_seen machine.now core address) else None)) }
{
    let mut bytes = Vec::new(alloc);
    for index in 0..addresses.len() {
        put_seen(&mut bytes, machine, core, addresses[index])?;
    }
    Ok(bytes)
}

/// The bytes that a core sees where an access reaches, of those that lie in memory.
pub fn private_bytes(
    alloc: Global,
    machine: &Machine,
    core: u8,
    access: Option<Access>,
) -> Result<Vec<StoredByte>, AllocError>
    requires { core < length machine.now.views }
    ensures { IfOk result (λ bytes. (address : ℕ) → IsAddress (length machine.now.memory) address →
        stored_at bytes.items address
        ≡ (if is_listed (loaded_addresses access) address then Some (byte_seen machine.now core address) else None)) }
{
    let addresses = addresses_of(access);
    seen_bytes(alloc, machine, core, addresses.as_slice())
}

// Adds the byte that a core sees at an address, where it lies in memory.
#[tactic(auto, using(crate::proofs::Lists::byte_stays))]
fn put_seen(
    bytes: &mut Vec<StoredByte>,
    machine: &Machine,
    core: u8,
    address: u64,
) -> Result<(), AllocError>
    requires { core < length machine.now.views }
    ensures { OnOk result ((at : ℕ) → IsAddress (length machine.now.memory) at → stored_at bytes.new.items at
        ≡ option_or (stored_at bytes.old.items at)
        (if nat_eq at address then Some (byte_seen machine.now core at) else None)) }
{
    if address >= machine.view().len() as u64 || address > 0xffff_ffff {
        return Ok(());
    }
    let byte = machine.seen(core, address as u32).unwrap();
    bytes.push(StoredByte { address, byte })?;
    Ok(())
}
