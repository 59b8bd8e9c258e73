//! The least, the middle and the greatest of sizes.
//!
//! [`spread_from`] goes over rows that are sorted, place by place: it answers the spread of one place, and where the
//! next one begins. Nothing is sorted here.

ghost use Rattle.std.specs.Prelude.{◌≡◌, ◌<◌, ◌≤◌, ◌+◌, ◌^◌, ℕ, IfSome, IsSomeAnd, Some, drop, length, slice_get};
ghost use Rattle.tm_stats.specs.Spread.{AreInOrder, IsSpreadOf, rows_of_place, sizes_of};
ghost use Rattle.tm_stats.specs.declared.step.PlaceSize.{PlaceSize};

use crate::step::PlaceSize;
use crate::tally::Tally;

/// The sizes of the transactions of a place, each size as often as there are transactions of it.
#[derive(Clone, Copy, PartialEq, Eq)]
pub struct Spread {
    /// The address of the XBEGIN.
    pub place: u32,
    /// How many transactions there are.
    pub count: u64,
    /// The least size.
    pub least: u64,
    /// The size in the middle of all in order; of an even number of them, the greater of the two.
    pub median: u64,
    /// The greatest size.
    pub most: u64,
}

/// The spread of the place whose rows begin at an index, in rows that stand in order, and the index behind its rows.
/// None behind the last row.
pub fn spread_from(sizes: &Tally<PlaceSize>, start: usize) -> Option<(Spread, usize)>
    ensures found { (row : PlaceSize × ℕ) → slice_get sizes.now.entries start ≡ Some row
        → AreInOrder (sizes_of (rows_of_place row.0.place (drop start sizes.now.entries)))
        → IsSomeAnd result (IsSpreadOf (drop start sizes.now.entries) start row.0.place) }
    ensures within { IfSome result (λ _. start < length sizes.now.entries) }
{
    let (first, _) = sizes.get_index(start)?;
    spread_of(sizes, start, first.place)
}

// The spread of the rows of a place, which begin at an index, and the index behind them.
fn spread_of(sizes: &Tally<PlaceSize>, start: usize, place: u32) -> Option<(Spread, usize)>
    ensures { start ≤ length sizes.now.entries
        → AreInOrder (sizes_of (rows_of_place place (drop start sizes.now.entries)))
        → IsSomeAnd result (IsSpreadOf (drop start sizes.now.entries) start place) }
{
    let (count, behind) = rows_of(sizes, start, place);
    let least = size_at(sizes, start, 0)?;
    let median = size_at(sizes, start, count / 2)?;
    let most = size_at(sizes, start, count.saturating_sub(1))?;
    let spread = Spread {
        place,
        count,
        least,
        median,
        most,
    };
    Some((spread, behind))
}

// How many transactions the rows of a place have that begin at an index, and the index behind these rows.
fn rows_of(sizes: &Tally<PlaceSize>, start: usize, place: u32) -> (u64, usize)
    ensures count { let rows = rows_of_place place (drop start sizes.now.entries) in
        length (sizes_of rows) < 2 ^ 64 → result.0 ≡ length (sizes_of rows) }
    ensures behind { start ≤ length sizes.now.entries
        → result.1 ≡ start + length (rows_of_place place (drop start sizes.now.entries)) }
{
    let mut count = 0u64;
    for index in start..sizes.len() {
        let Some((key, many)) = sizes.get_index(index) else {
            return (count, index);
        };
        if key.place != place {
            return (count, index);
        }
        count = count.saturating_add(*many);
    }
    (count, sizes.len())
}

// The size at a rank, from 0, among those of the rows from an index on.
fn size_at(sizes: &Tally<PlaceSize>, start: usize, rank: u64) -> Option<u64>
    ensures { result ≡ slice_get (sizes_of (drop start sizes.now.entries)) rank }
{
    let mut left = rank;
    for index in start..sizes.len() {
        let (key, many) = sizes.get_index(index)?;
        if left < *many {
            return Some(key.size);
        }
        left -= *many;
    }
    None
}
