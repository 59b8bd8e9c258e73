//! The draw of a run's events: for each step whether it comes under one, and then of which kind.
//!
//! [`Lot::steps_before`] draws as [`Lot::next`] would for one step after another, and no further than the first
//! event. The rate and the kinds are chosen before the run, by `events`.

ghost use Rattle.std.specs.Prelude.{◌≡◌, ◌<◌, ◌≤◌, IfNone, IfSome};

use crate::chance::Chance;
use crate::kinds::Kinds;
use tm_model::Event;

/// By what events are drawn: one step in so many comes under one of these kinds.
#[derive(Drop)]
pub struct Lot {
    chance: Chance,
    one_in: u32,
    kinds: Kinds,
    ghost some: { 1 ≤ one_in },
}

impl Lot {
    ghost use Rattle.tm_pick.specs.Befalls.{IsOfLot};
    ghost use Rattle.tm_pick.specs.Begun.{IsLot};
    ghost use Rattle.tm_pick.specs.Chances.{words_of};
    ghost use Rattle.tm_pick.specs.Kinds.{IsOfKinds};

    /// Draws events of these kinds, at one step in so many.
    pub fn new(chance: Chance, one_in: u32, kinds: Kinds) -> Lot
        requires { 1 ≤ one_in }
        ensures { IsLot one_in kinds (words_of chance) result }
    {
        Lot {
            chance,
            one_in,
            kinds,
        }
    }

    /// The event of the next step, if it comes under one.
    pub fn next(&mut self) -> Option<Event>
        ensures kinds { IsOfKinds self.old.kinds result }
        ensures same { self.new.kinds ≡ self.old.kinds }
        ensures drawn { IsOfLot self.old result self.new }
    {
        if self.chance.below(self.one_in) == 0 {
            self.kinds.draw(&mut self.chance)
        } else {
            None
        }
    }

    /// How many of the next steps, at most so many, come under no event, and the event of the one behind them.
    pub fn steps_before(&mut self, most: u32) -> (u32, Option<Event>)
        ensures none { IfNone result.1 (result.0 ≡ most) }
        ensures some { IfSome result.1 (λ _. result.0 < most) }
        ensures kinds { IsOfKinds self.old.kinds result.1 }
        ensures same { self.new.kinds ≡ self.old.kinds }
    {
        for quiet in 0..most {
            if let Some(event) = self.next() {
                return (quiet, Some(event));
            }
        }
        (most, None)
    }
}
