//! Machines that are shown alike: their cores, with the stores that are pending, and all bytes of memory.
//!
//! [`are_alike`] looks at memory only where the cores are alike, since that takes longest. Who compares two
//! machines time and again asks [`are_same_at`] first, at the place where [`first_difference`] was the last time.

ghost use Rattle.std.specs.Prelude.{◌≡◌, ◌≤◌, IsTrue, length};
ghost use Rattle.tm_hunt.specs.Cycle.{AreAlike, AreCoresAlike, ArePendingAlike};

use tm_core::Machine;

/// Whether two machines are shown alike: the cores, and memory, which is compared where all of them are alike.
pub fn are_alike(a: &Machine, b: &Machine) -> bool
    ensures { IsTrue result → AreAlike a.now b.now }
{
    are_cores_alike(a, b) && a.view() == b.view()
}

/// Whether all cores of two machines are shown alike, and their stores that are pending.
pub fn are_cores_alike(a: &Machine, b: &Machine) -> bool
    ensures count { IsTrue result → length a.now.views ≡ length b.now.views }
    ensures each { IsTrue result → AreCoresAlike a.now b.now (length a.now.views) }
    ensures pending { IsTrue result → ArePendingAlike a.now b.now (length a.now.views) }
{
    if a.cores() != b.cores() {
        return false;
    }
    for core in 0..a.cores() {
        if !a.is_core_alike(b, core) || !a.is_pending_alike(b, core) {
            return false;
        }
    }
    true
}

/// Whether two machines have the same byte at an address.
pub fn are_same_at(a: &Machine, b: &Machine, address: usize) -> bool {
    a.view().get(address) == b.view().get(address)
}

/// The first address at which the memories of two machines differ, if any.
pub fn first_difference(a: &Machine, b: &Machine) -> Option<usize> {
    let size = a.view().len();
    for address in 0..size {
        if !are_same_at(a, b, address) {
            return Some(address);
        }
    }
    None
}
