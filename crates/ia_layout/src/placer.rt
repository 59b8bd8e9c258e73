//! Walks over entries that hand the place of each on.

ghost use Rattle.std.specs.Prelude.{◌≡◌, ◌<◌, ◌^◌, length};

use crate::layout::Layout;
use crate::taker::Taker;
use ia_item::{Entry, Walk};
use std::alloc::{AllocError, Global};
use std::mem::{size_of, size_of_val};

/// How many entries there are. A row of them takes fewer than 2^64 bytes, so there are fewer than 2^58.
fn entry_count(entries: &[Entry]) -> usize
    ensures count { result ≡ length entries.now }
    ensures few { length entries.now < 2 ^ 58 }
{
    size_of_val(entries) / size_of::<Entry>()
}

/// A walk that hands the place of each entry on.
#[derive(Drop)]
pub struct Placer<T> {
    /// Where the next entry goes.
    pub walk: Layout,
    /// What takes the places.
    pub taker: T,
}

impl<T> Placer<T> {
    ghost use Rattle.std.specs.Prelude.{◌≡◌};
    ghost use Rattle.ia_layout.specs.Placement.{start};
    ghost use Rattle.ia_layout.specs.Contents.{layout_state};

    /// A walk that puts the code and the data there.
    pub fn new(alloc: Global, base: u32, tail: u128, taker: T) -> Placer<T>
        ensures walk { layout_state result.walk ≡ start base tail }
        ensures taker { result.taker ≡ taker }
    {
        Placer {
            walk: Layout::new(alloc, u128::from(base), tail),
            taker,
        }
    }
}

impl<'a, T: Taker<'a>> Walk<'a> for Placer<T> {
    ghost use Rattle.std.specs.Prelude.{refl};
    ghost use Rattle.ia_layout.specs.Placement.{places, after};
    ghost use Rattle.ia_layout.specs.Contents.{layout_state};
    ghost use Rattle.ia_layout.specs.Parts.{after_both, taken_both};

    ghost Walked = { λ a es b. (layout_state b.walk ≡ after (layout_state a.walk) es)
        × T.Taken a.taker (places (layout_state a.walk) es) b.taker };

    ghost stays = { λ w. (refl, T.stays w.taker) };

    ghost goes_on = { λ a b c es fs x y. (
      after_both (layout_state a.walk) (layout_state b.walk) (layout_state c.walk) es fs x.0 y.0,
      taken_both T.Taken T.goes_on a.taker b.taker c.taker (layout_state a.walk) (layout_state b.walk)
          es fs x.0 x.1 y.1,
    ) };

    fn go_over(&mut self, entries: &[Entry<'a>]) -> Result<(), AllocError> {
        // No machine holds an image that goes so far; from there on sums of sizes might not be exact.
        if self.walk.is_far() {
            return Err(AllocError);
        }
        // So few entries that sums of their sizes are exact.
        let _count = entry_count(entries);
        for entry in entries {
            let spot = self.walk.place(entry)?;
            self.taker.take(&spot)?;
        }
        Ok(())
    }
}
