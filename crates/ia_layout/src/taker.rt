//! What is handed the place of each entry.

use crate::layout::PlacedEntry;
use std::alloc::AllocError;

/// What takes the places of entries in their order, one at a time.
pub trait Taker<'a> {
    ghost use Rattle.std.specs.Prelude.{List, ◌++◌, ◌∷◌, [], OnOk};
    ghost use Rattle.ia_layout.specs.Placement.{EntryPlace};
    ghost use Rattle.ia_layout.specs.Contents.{entry_place, IsBounded};

    // What taking places makes of it.
    ghost Taken: { Self → List EntryPlace → Self → Type 0 };

    /// Takes the next place.
    fn take(&mut self, spot: &PlacedEntry<'a, '_>) -> Result<(), AllocError>
        requires { IsBounded spot.now }
        ensures { OnOk result (Taken self.old (entry_place spot.now ∷ []) self.new) };

    ghost stays: { (t : Self) → Taken t [] t };

    ghost goes_on: { (a b c : Self) (ps qs : List EntryPlace) → Taken a ps b → Taken b qs c → Taken a (ps ++ qs) c };
}

/// Takes places, and does nothing with them.
#[derive(Drop)]
pub struct NoTaker;

impl<'a> Taker<'a> for NoTaker {
    ghost Taken = { λ _ _ _. Unit {0} };

    ghost stays = { λ _. tt };

    ghost goes_on = { λ _ _ _ _ _ _ _. tt };

    fn take(&mut self, _spot: &PlacedEntry<'a, '_>) -> Result<(), AllocError> {
        Ok(())
    }
}

/// Takes places one after the other for two others.
#[derive(Drop)]
pub struct Both<A, B> {
    /// What takes each place first.
    pub first: A,
    /// What takes it then.
    pub second: B,
}

impl<'a, A: Taker<'a>, B: Taker<'a>> Taker<'a> for Both<A, B> {
    ghost Taken = { λ a ps b. A.Taken a.first ps b.first × B.Taken a.second ps b.second };

    ghost stays = { λ t. (A.stays t.first, B.stays t.second) };

    ghost goes_on = { λ a b c ps qs x y. (
      A.goes_on a.first b.first c.first ps qs x.0 y.0,
      B.goes_on a.second b.second c.second ps qs x.1 y.1,
    ) };

    fn take(&mut self, spot: &PlacedEntry<'a, '_>) -> Result<(), AllocError> {
        self.first.take(spot)?;
        self.second.take(spot)
    }
}
