//! Stores that are pending, laid over memory for one step of their core, and taken off again behind it.
//!
//! [`lay_over`] writes them, the oldest first, so that memory is as their core sees it, and keeps what they
//! overwrote; [`take_off`] writes that back, the newest first. Nobody looks at memory between but the step.

ghost use Rattle.std.specs.Prelude.{◌≡◌, ◌+◌, ◌≤◌, ◌^◌, [], All, length, reverse, vec_capacity};
ghost use Rattle.ia_word.specs.Operand.{operand_bytes};
ghost use Rattle.tm_model.specs.Access.{addresses_of, bytes_at};
ghost use Rattle.tm_model.specs.State.{seen_memory};
ghost use Rattle.tm_core.specs.StoreBuffers.{IsStorable};

use ia_exec::Store;
use tm_whole::memory::{read, write};

// What stands in memory where a store goes, as a store of it.
fn stands_under(memory: &[u8], store: Store) -> Store
    requires { IsStorable (length memory.now) store }
    ensures address { result.addr ≡ store.addr }
    ensures width { result.width ≡ store.width }
    ensures bytes { operand_bytes result.width result.value
        ≡ bytes_at memory.now (addresses_of store.addr store.width) }
    ensures storable { IsStorable (length memory.now) result }
{
    Store {
        addr: store.addr,
        width: store.width,
        value: read(memory, store.addr, store.width),
    }
}

/// Writes stores into memory, the oldest first, and keeps what they overwrote, in the same order.
pub fn lay_over(memory: &mut [u8], stores: &[Store], under: &mut Vec<Store>)
    requires storable { All (IsStorable (length memory.old)) stores.now }
    requires empty { under.old.items ≡ [] }
    requires room { length stores.now ≤ vec_capacity under.old }
    ensures seen { memory.new ≡ seen_memory memory.old stores.now }
    ensures back { seen_memory memory.new (reverse under.new.items) ≡ memory.old }
    ensures storable { All (IsStorable (length memory.old)) under.new.items }
    ensures count { length under.new.items ≡ length stores.now }
    ensures capacity { vec_capacity under.new ≡ vec_capacity under.old }
{
    for store in stores {
        under.push_reserved(stands_under(memory, *store));
        write(memory, Some(*store));
    }
}

/// Writes what was overwritten back, the newest first.
pub fn take_off(memory: &mut [u8], under: &[Store])
    requires { All (IsStorable (length memory.old)) under.now }
    ensures { memory.new ≡ seen_memory memory.old (reverse under.now) }
{
    let count = under.len();
    for taken in 0..count {
        write(memory, Some(under[count - 1 - taken]));
    }
}
