//! What the next step of a core comes to, of which stores may be pending, told by the parts before the step:
//! [`foretell_pending`].
//!
//! Which bytes its instruction reaches, and why it is an abort, is told by `foretell`, on memory as the core sees it.
//! Of what others see there is only the oldest store where the step waits, and only the load where its own store is
//! pending then; which of them it is, is foreseen by `ahead`.

ghost use Rattle.std.specs.Prelude.{◌≡◌, ◌<◌, ◌≤◌, All, length, slice_index_or};
ghost use Rattle.tm_core.specs.Previewed.{IsForetold};
ghost use Rattle.tm_core.specs.Representation.{cpu_views, setting_with};
ghost use Rattle.tm_core.specs.Stepping.{IsSteppable};
ghost use Rattle.tm_core.specs.StoreBuffers.{IsStorable};

use crate::ahead::{Ahead, foresee};
use crate::cpu::Cpu;
use crate::foretell::{Foretold, Touches, foretell};
use crate::seen_memory::SeenMemory;
use ia_exec::Store;
use tm_quick::Listing;
use tm_sets::Sets;

/// The store at a place of these.
pub fn store_at(pending: &[Store], place: usize) -> Store
    requires { place < length pending.now }
    ensures { result ≡ slice_index_or pending.now place result }
{
    pending[place]
}

/// What the next step of core c comes to, of which these stores are pending, and at most so many may be.
pub fn foretell_pending<S: Sets>(
    listing: &Listing,
    memory: &[u8],
    cpus: &[Cpu],
    sets: &S,
    c: u8,
    pending: &[Store],
    most: u8,
) -> Foretold
    requires parts { IsSteppable listing.now.code.bytes.now listing.now.code.base memory.now (S.content sets.now)
        cpus.now }
    requires exists { c < length cpus.now }
    requires storable { All (IsStorable (length memory.now)) pending.now }
    requires few { length pending.now ≤ most }
    ensures { IsForetold (setting_with listing.now.code.bytes.now listing.now.code.base (length memory.now)
        (S.content sets.now) most) memory.now pending.now (cpu_views (S.content sets.now) cpus.now c) result }
{
    if most > 0 {
        return foretell_buffered(listing, memory, cpus, sets, c, pending, most);
    }
    let seen = SeenMemory::of(memory, pending);
    foretell(listing, &seen, cpus, sets, c)
}

// The same where there is room for a store.
#[inline(never)]
fn foretell_buffered<S: Sets>(
    listing: &Listing,
    memory: &[u8],
    cpus: &[Cpu],
    sets: &S,
    c: u8,
    pending: &[Store],
    most: u8,
) -> Foretold
    requires parts { IsSteppable listing.now.code.bytes.now listing.now.code.base memory.now (S.content sets.now)
        cpus.now }
    requires exists { c < length cpus.now }
    requires storable { All (IsStorable (length memory.now)) pending.now }
    requires some { 0 < most }
    ensures { IsForetold (setting_with listing.now.code.bytes.now listing.now.code.base (length memory.now)
        (S.content sets.now) most) memory.now pending.now (cpu_views (S.content sets.now) cpus.now c) result }
{
    let seen = SeenMemory::of(memory, pending);
    let told = foretell(listing, &seen, cpus, sets, c);
    match foresee(&listing.code, &seen, cpus, sets, c, pending, most) {
        Ahead::Goes => told,
        Ahead::Stores(step) => Foretold {
            touched: Touches::Accesses(step.access, None),
            reach: told.reach,
            reason: told.reason,
        },
        Ahead::Waits(_wait) => Foretold {
            touched: Touches::Accesses(None, Some(store_at(pending, 0))),
            reach: told.reach,
            reason: told.reason,
        },
    }
}
