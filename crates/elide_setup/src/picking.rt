//! What picks the steps of a schedule that is drawn: [`Picker`], and [`DrainedPicker`] where drains come besides.
//!
//! [`PickSource`] is asked for each step by the walk, which also takes out the cores that have stopped. A type for each
//! of the two, so that a walk on which no store may be pending pays nothing for drains.

ghost use Rattle.std.specs.Prelude.{◌≡◌, ◌<◌, ◌++◌, ◌∷◌, [], Contains, IfSome, List, None, Option, Some, ℕ, false, length};
ghost use Rattle.std.specs.Prelude.{true};
ghost use Rattle.tm_model.specs.declared.outcome.Pick.{Pick};
ghost use Rattle.tm_pick.specs.Drawn.{AreDrawn};
ghost use Rattle.tm_pick.specs.Turns.{IsInTurn};
ghost use Rattle.elide_setup.specs.Drawing.{AreDrained, AreUnder, ComeAs, has_own_drains};
ghost use Rattle.elide_setup.specs.OwnDrains.{AreOwnDrains};
ghost use Rattle.elide_setup.specs.declared.plan.Drawn.{Drawn};

use crate::own_drains::OwnDrains;
use crate::plan::Drawn;
use tm_model::Pick;
use tm_pick::{Going, Picker};

/// What picks one step of a schedule that is drawn after another.
pub trait PickSource {
    // Behind these picks of a schedule it picks the next ones.
    ghost is_behind: { Drawn → List Pick → Self → Type 0 };

    // The core of the last step, where it goes round by round.
    ghost turn: { Self → Option (Option ℕ) };

    /// The next step: a core that has not stopped, and its event, if any.
    fn next_pick(&mut self, going: &Going) -> Pick
        requires { 0 < length going.now }
        ensures core { Contains going.now result.core }
        ensures turn { IfSome (turn self.old) (λ last. IsInTurn last going.now result.core) }
        ensures goes_on { IfSome (turn self.old) (λ last. turn self.new ≡ Some (Some result.core)) }
        ensures behind { (drawn : Drawn) (picks : List Pick) → is_behind drawn picks self.old →
            is_behind drawn (picks ++ result ∷ []) self.new }
        ensures come { (drawn : Drawn) (picks : List Pick) → is_behind drawn picks self.old →
            ComeAs drawn (picks ++ result ∷ []) };
}

impl PickSource for Picker<'_> {
    ghost is_behind = { λ drawn picks picker. (has_own_drains drawn ≡ false) × AreDrawn drawn.events picker.kinds
        × AreUnder drawn.events picks };

    ghost turn = { λ picker. picker.turn };

    #[inline(always)]
    fn next_pick(&mut self, going: &Going) -> Pick {
        self.next(going, false)
    }
}

/// What picks the steps where drains come besides the events that are asked for.
#[derive(Drop)]
pub struct DrainedPicker {
    picker: Picker<'static>,
    drains: OwnDrains,
}

impl DrainedPicker {
    // That of a schedule.
    pub(crate) fn new(drawn: Drawn) -> DrainedPicker
        ensures events { AreDrawn drawn.events result.picker.kinds }
        ensures turn { drawn.seed ≡ None → result.picker.turn ≡ Some None }
        ensures drains { AreOwnDrains drawn.seed result.drains }
    {
        DrainedPicker {
            picker: drawn.picker(),
            drains: OwnDrains::of(drawn.seed),
        }
    }
}

impl PickSource for DrainedPicker {
    ghost is_behind = { λ drawn picks source. (has_own_drains drawn ≡ true) × AreDrawn drawn.events source.picker.kinds
        × AreDrained drawn.seed drawn.events source.drains picks };

    ghost turn = { λ source. source.picker.turn };

    fn next_pick(&mut self, going: &Going) -> Pick {
        let pick = self.picker.next(going, false);
        self.drains.befall(pick)
    }
}
