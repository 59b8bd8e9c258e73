//! The events of one run, for who picks its cores in another way.
//!
//! [`Interferer::next`] is asked once for each step, or [`Interferer::steps_before`] for many, which draws the same
//! numbers, so that the steps under no event can be made as one run. Where there are no events, nothing is drawn.
//! By what they are drawn is `lot`'s.

ghost use Rattle.std.specs.Prelude.{◌≡◌, ◌<◌, ◌≤◌, IfNone, IfSome, None};
ghost use Rattle.tm_pick.specs.Kinds.{IsOfKinds, no_kinds};
ghost use Rattle.tm_pick.specs.Lots.{kinds_drawn};

use crate::lot::Lot;
use std::marker::Model;
use tm_model::Event;

/// What draws the event of one step of a run after another. Contracts see the kinds that may come.
#[derive(Drop)]
pub struct Interferer {
    lot: Option<Lot>,
}

impl Model for Interferer {
    ghost use Rattle.tm_pick.specs.Lots.{kinds_drawn};
    ghost use Rattle.tm_pick.specs.declared.kinds.Kinds.{Kinds};

    ghost Value = { Kinds };

    ghost view = { λ interferer. kinds_drawn interferer.lot };
}

impl Interferer {
    // Events that are drawn by this, where there is one.
    pub(crate) fn by(lot: Option<Lot>) -> Interferer
        ensures { result ≡ kinds_drawn lot }
    {
        Interferer { lot }
    }

    // By what it draws.
    pub(crate) fn into_lot(self) -> Option<Lot>
        ensures { kinds_drawn result ≡ self }
    {
        self.lot
    }

    /// The event of the next step, if it comes under one.
    #[inline(always)]
    pub fn next(&mut self) -> Option<Event>
        ensures kinds { IsOfKinds self.old result }
        ensures same { self.new ≡ self.old }
        ensures never { self.old ≡ no_kinds → result ≡ None }
    {
        match &mut self.lot {
            None => None,
            Some(lot) => lot.next(),
        }
    }

    /// How many of the next steps come under no event, at most so many, and the event of the one behind them, where
    /// that one is among so many: what `next` answers for one after another. Without events it takes no time.
    pub fn steps_before(&mut self, most: u32) -> (u32, Option<Event>)
        ensures none { IfNone result.1 (result.0 ≡ most) }
        ensures some { IfSome result.1 (λ _. result.0 < most) }
        ensures kinds { IsOfKinds self.old result.1 }
        ensures same { self.new ≡ self.old }
    {
        match &mut self.lot {
            None => (most, None),
            Some(lot) => lot.steps_before(most),
        }
    }
}
