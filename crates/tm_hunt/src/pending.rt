//! What a machine shows of the stores of a core that are pending, beside which the core may load from memory.
//!
//! [`pending_count`] counts them, and [`has_byte_beside`] tells whether an access has a byte that none of them writes:
//! who loads it has it from memory. No memory is asked for.

ghost use Rattle.std.specs.Prelude.{◌≡◌, ◌<◌, ◌≤◌, All, IsTrue, Some, length};
ghost use Rattle.tm_core.specs.Theorem.{pending_at};
ghost use Rattle.tm_model.specs.Access.{loaded_addresses};
ghost use Rattle.tm_hunt.specs.Delays.{HasByteBeside, IsBeside};

use ia_addr::Access;
use ia_exec::Store;
use tm_core::Machine;

/// How many stores of a core are pending; 0 where there is no such core.
pub fn pending_count(machine: &Machine, core: u8) -> usize
    ensures count { core < length machine.now.views → result ≡ length (pending_at machine.now core) }
    ensures most { result ≤ length (pending_at machine.now core) }
{
    match machine.pending(core) {
        Ok(stores) => stores.len(),
        Err(_) => 0,
    }
}

/// Whether an access, if there is one, has a byte that no store of a core writes that is pending.
pub fn has_byte_beside(machine: &Machine, core: u8, access: Option<Access>) -> bool
    ensures { IsTrue result → HasByteBeside (loaded_addresses access) (pending_at machine.now core) }
{
    match (access, machine.pending(core)) {
        (Some(access), Ok(stores)) => has_byte(access, stores),
        _ => false,
    }
}

// Whether an access has a byte that none of these stores writes.
fn has_byte(access: Access, stores: &[Store]) -> bool
    ensures { IsTrue result → HasByteBeside (loaded_addresses (Some access)) stores.now }
{
    for offset in 0..access.width.bytes() {
        if is_beside_all(u64::from(access.addr) + u64::from(offset), stores) {
            return true;
        }
    }
    false
}

// Whether none of these stores writes a byte.
fn is_beside_all(address: u64, stores: &[Store]) -> bool
    ensures { IsTrue result → All (IsBeside address) stores.now }
{
    for store in stores {
        if !is_beside(address, *store) {
            return false;
        }
    }
    true
}

// Whether a store does not write a byte.
fn is_beside(address: u64, store: Store) -> bool
    ensures { IsTrue result → IsBeside address store }
{
    let first = u64::from(store.addr);
    address < first || first + u64::from(store.width.bytes()) <= address
}
