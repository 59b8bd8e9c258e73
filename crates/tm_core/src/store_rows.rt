//! The rows of stores that a machine with store buffers keeps: [`start_rows`], [`empty_rows`] and [`copy_rows`].
//!
//! A row has room for as many stores as may be pending, so that no step asks for memory.

ghost use Rattle.std.specs.Prelude.{◌≡◌, ◌<◌, ◌≤◌, ℕ, IfOk, Vec, length, slice_index_or, vec_capacity};
ghost use Rattle.tm_core.specs.Buffered.{AreCopied, AreGivenUp, HaveRoom, IsEmptyRow};

use ia_exec::Store;
use std::alloc::{AllocError, Global};

/// So many rows with no store and with room for so many.
pub fn start_rows(alloc: Global, count: u8, most: u8) -> Result<Vec<Vec<Store>>, AllocError>
    ensures count { IfOk result (λ rows. length rows.items ≡ count) }
    ensures each { IfOk result (λ rows. (i : ℕ) (other : Vec Store _) → i < count →
        IsEmptyRow most (slice_index_or rows.items i other)) }
{
    let mut rows = Vec::new(alloc);
    for _core in 0..count {
        rows.push(Vec::with_capacity(alloc, most as usize)?)?;
    }
    Ok(rows)
}

/// Gives up the stores that are pending.
pub fn empty_rows(rows: &mut [Vec<Store>])
    ensures { AreGivenUp rows.old rows.new }
{
    for core in 0..rows.len() {
        rows[core].clear();
    }
}

// Takes over the stores of another row.
fn copy_row(row: &mut Vec<Store>, twin: &[Store])
    requires { length twin.now ≤ vec_capacity row.old }
    ensures items { row.new.items ≡ twin.now }
    ensures capacity { vec_capacity row.new ≡ vec_capacity row.old }
{
    row.clear();
    for store in twin {
        row.push_reserved(*store);
    }
}

/// Takes over the stores of as many other rows.
pub fn copy_rows(rows: &mut [Vec<Store>], twins: &[Vec<Store>])
    requires count { length twins.now ≡ length rows.old }
    requires room { HaveRoom rows.old twins.now }
    ensures { AreCopied rows.old twins.now rows.new }
{
    for core in 0..rows.len() {
        copy_row(&mut rows[core], twins[core].as_slice());
    }
}
