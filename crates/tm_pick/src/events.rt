//! Which events the runs of a search come under: none, those of a rate that is said, or of one that each run draws.
//!
//! [`Events::of_run`] makes an [`Interferer`] for one run; where all is drawn, the rate comes before the kinds.
//! What is drawn at each step stands in `lot`, and the text of the option is read in `elide_setup`.

ghost use Rattle.std.specs.Prelude.{◌≡◌, ◌<◌};
ghost use Rattle.tm_pick.specs.Begun.{AreEventsOf, IsDrawnLot, kinds_at};
ghost use Rattle.tm_pick.specs.Chances.{words_of};
ghost use Rattle.tm_pick.specs.Drawn.{AreDrawn};
ghost use Rattle.tm_pick.specs.Lots.{kinds_drawn};
ghost use Rattle.tm_pick.specs.declared.events.Events.TheVariants as events;

use crate::chance::{Chance, power_of_two};
use crate::interferer::Interferer;
use crate::kinds::Kinds;
use crate::lot::Lot;
use tm_model::Interference;

/// Among how many rates a run draws its own, of events and of drains: 1, 1/2, 1/4 and so on, down to 1/64.
pub const RATES: u32 = 7;

/// The events of the steps of a run by chance: aborts from outside of the program (SDM volume 1, 16.3.8).
#[derive(Clone, Copy, PartialEq, Eq)]
pub enum Events {
    /// None.
    Never,
    /// One step in so many comes under an event, by chance.
    Rate {
        /// In how many, 1 to 65,536; 1 is each step, and 0 is as 1.
        one_in: u32,
        /// Of which kinds, each as likely as another.
        kinds: Kinds,
    },
    /// Each run draws its rate, of 1, 1/2, 1/4 and so on down to 1/64, and its kinds: one of the three, or all of them.
    Draw,
}

impl Events {
    /// The events of the run of this number: a function of the seed and the number, by a generator of their own. So the
    /// cores of a run are drawn from the same numbers with events as without.
    pub fn of_run(self, seed: u32, run: u32) -> Interferer
        ensures { AreDrawn self result }
    {
        Interferer::by(self.lot_of_run(seed, run))
    }

    // By what the events of the run of this number are drawn, where there are any.
    pub(crate) fn lot_of_run(self, seed: u32, run: u32) -> Option<Lot>
        ensures kinds { AreDrawn self (kinds_drawn result) }
        ensures lot { AreEventsOf self seed run result }
    {
        match self {
            Events::Never => None,
            Events::Rate { one_in, kinds } => {
                Some(Lot::new(Chance::of_events(seed, run), one_in.max(1), kinds))
            }
            Events::Draw => Some(drawn(Chance::of_events(seed, run))),
        }
    }
}

// Events whose rate and kinds are drawn.
fn drawn(mut chance: Chance) -> Lot
    ensures kinds { AreDrawn events.Draw result.kinds }
    ensures lot { IsDrawnLot (words_of chance) result }
{
    let one_in = power_of_two(chance.below(RATES));
    let kinds = kinds_at(chance.below(4));
    Lot::new(chance, one_in, kinds)
}

// One kind, or all of them, by a number below 4.
fn kinds_at(index: u32) -> Kinds
    ensures value { result ≡ kinds_at index }
    ensures drawn { AreDrawn events.Draw result }
{
    match index {
        0 => Kinds::only(Interference::Interrupt),
        1 => Kinds::only(Interference::Eviction),
        2 => Kinds::only(Interference::Snoop),
        _ => Kinds::ALL,
    }
}
