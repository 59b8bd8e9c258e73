//! Totals by key.
//!
//! No total wraps: it stays at the greatest number once there. Who adds has made room before, so that adding takes no
//! memory.

ghost use Rattle.std.specs.Prelude.{◌≡◌, ◌+◌, ◌^◌, ◌<◌};
ghost use Rattle.indexmap.specs.IndexMap.{spare};
ghost use Rattle.tm_stats.specs.Tally.{counted, total_of};

use indexmap::IndexMap;
use std::hash::Hash;

/// Totals by key.
pub type Tally<K> = IndexMap<K, u64>;

/// A sum, where it fits.
pub fn plus(left: u64, right: u64) -> u64
    ensures { left + right < 2 ^ 64 → result ≡ left + right }
{
    left.saturating_add(right)
}

/// One more where a test holds, where it fits.
pub fn count_if(total: u64, holds: bool) -> u64
    ensures { total + 1 < 2 ^ 64 → result ≡ counted holds total }
{
    if holds { plus(total, 1) } else { total }
}

/// One more for a key, where there is room for it.
pub fn add_one<K: Eq + Hash + Drop>(tally: &mut Tally<K>, key: K)
    requires { 0 < spare tally.old }
    ensures { (q : K) → total_of K.eq tally.old q + 1 < 2 ^ 64
        → total_of K.eq tally.new q ≡ counted (K.eq key q) (total_of K.eq tally.old q) }
{
    let total = tally.get(&key).copied().unwrap_or(0);
    match tally.insert(key, plus(total, 1)) {
        Ok(_) => {}
        Err(_) => unreachable!(),
    }
}
