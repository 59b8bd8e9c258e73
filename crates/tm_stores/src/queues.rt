//! The queues of a machine's cores as rows, each with room for as many stores as may be pending.
//!
//! [`start_queues`] makes them, and [`change_queue`] takes a change of one core. So no change asks for memory.

ghost use Rattle.std.specs.Prelude.{◌≡◌, ◌<◌, ◌≤◌, [], ℕ, IfOk, Vec, length, slice_index_or, slice_set, vec_capacity};
ghost use Rattle.tm_stores.specs.Queues.{HaveRoom, queues_in};
ghost use Rattle.tm_stores.specs.Stores.{queue_after};

use crate::change::{Change, MadeStore};
use std::alloc::{AllocError, Global};

/// So many queues with no store and with room for so many.
pub fn start_queues(
    alloc: Global,
    count: u8,
    most: usize,
) -> Result<Vec<Vec<MadeStore>>, AllocError>
    ensures count { IfOk result (λ rows. length rows.items ≡ count) }
    ensures room { IfOk result (λ rows. HaveRoom most rows.items) }
    ensures none { IfOk result (λ rows. (core : ℕ) → slice_index_or (queues_in rows.items) core [] ≡ []) }
{
    let mut rows = Vec::new(alloc);
    for _core in 0..count {
        rows.push(Vec::with_capacity(alloc, most)?)?;
    }
    Ok(rows)
}

// Takes the oldest store out of a queue, where there is one.
fn drop_oldest(queue: &mut Vec<MadeStore>)
    ensures items { queue.new.items ≡ queue_after 0 Change.Drains queue.old.items }
    ensures capacity { vec_capacity queue.new ≡ vec_capacity queue.old }
{
    if !queue.as_slice().is_empty() {
        let _oldest = queue.remove(0);
    }
}

// Adds a store behind those of a queue, where so many may be pending.
fn add_newest(queue: &mut Vec<MadeStore>, most: usize, store: MadeStore)
    requires room { most ≤ vec_capacity queue.old }
    ensures items { queue.new.items ≡ queue_after most (Change.Pends store) queue.old.items }
    ensures capacity { vec_capacity queue.new ≡ vec_capacity queue.old }
{
    if queue.as_slice().len() < most {
        queue.push_reserved(store);
    }
}

// A queue behind this change.
fn take_change(queue: &mut Vec<MadeStore>, most: usize, change: Change)
    requires room { most ≤ vec_capacity queue.old }
    ensures items { queue.new.items ≡ queue_after most change queue.old.items }
    ensures capacity { vec_capacity queue.new ≡ vec_capacity queue.old }
{
    match change {
        Change::Pends(store) => add_newest(queue, most, store),
        Change::Drains => drop_oldest(queue),
        Change::Stays => {}
    }
}

/// The queues behind this change of a core; where the core has none, they stay.
pub fn change_queue(rows: &mut [Vec<MadeStore>], most: usize, core: u8, change: Change)
    requires room { HaveRoom most rows.old }
    ensures queues { queues_in rows.new ≡ slice_set (queues_in rows.old) core
        (queue_after most change (slice_index_or (queues_in rows.old) core [])) }
    ensures room { HaveRoom most rows.new }
{
    let place = usize::from(core);
    if place < rows.len() {
        take_change(&mut rows[place], most, change);
    }
}
