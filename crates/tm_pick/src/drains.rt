//! The drains of a run, where stores may be pending: [`Drains`].
//!
//! Each run draws its rate, and then of each step whether it is the drain of its core's oldest store instead, by a
//! generator of their own: so the cores and the events of a run are drawn from the same numbers with drains as
//! without. With room for no store nothing is drawn. A drain that is drawn where none of the core's stores is pending
//! is the step (`tm_core`).

ghost use Rattle.std.specs.Prelude.{◌≡◌, ◌<◌};
ghost use Rattle.tm_pick.specs.Chances.{words_of};
ghost use Rattle.tm_pick.specs.Drains.{AreDrainsBy, AreDrainsOf, IsDrained, drains_alone};
ghost use Rattle.tm_pick.specs.Kinds.{AreAmong, IsOfKinds};
ghost use Rattle.tm_pick.specs.Lots.{kinds_drawn};
ghost use Rattle.tm_pick.specs.Sources.{both_kinds};
ghost use Rattle.tm_pick.specs.declared.kinds.Kinds.{Kinds};

use crate::chance::{Chance, power_of_two};
use crate::events::RATES;
use crate::kinds::Kinds;
use crate::lot::Lot;
use crate::picker::{first_of, next_event};
use std::marker::Model;
use tm_model::Event;

/// What draws of one step of a run after another whether it is a drain. Contracts see by what it is drawn, where it is.
#[derive(Drop)]
pub struct Drains {
    lot: Option<Lot>,
}

impl Model for Drains {
    ghost use Rattle.std.specs.Prelude.{Option};
    ghost use Rattle.tm_pick.specs.declared.lot.Lot.{Lot};

    ghost Value = { Option Lot };

    ghost view = { λ drains. drains.lot };
}

impl Drains {
    /// Those of the run of this number, where at most so many stores of a core may be pending: a function of the three.
    /// Their rate is drawn, of 1, 1/2, 1/4 and so on down to 1/64.
    pub fn of_run(seed: u32, run: u32, stores: u32) -> Drains
        ensures { AreDrainsOf stores seed run result }
    {
        if stores == 0 {
            return Drains { lot: None };
        }
        let lot = drawn(Chance::of_drains(seed, run));
        Drains { lot: Some(lot) }
    }

    /// The event of the next step, which comes under this one so far: that one, or else a drain, if it is drawn.
    pub fn befall(&mut self, event: Option<Event>) -> Option<Event>
        ensures drawn { IsDrained event self.old result self.new }
        ensures kinds { (kinds : Kinds) → IsOfKinds kinds event →
            IsOfKinds (both_kinds kinds (kinds_drawn self.old)) result }
        ensures same { kinds_drawn self.new ≡ kinds_drawn self.old }
    {
        // Drawn for each step, so that no event moves the drains behind it.
        let drain = next_event(&mut self.lot);
        first_of(event, drain)
    }
}

// Drains whose rate is drawn.
fn drawn(mut chance: Chance) -> Lot
    ensures { AreDrainsBy (words_of chance) result }
{
    let one_in = power_of_two(chance.below(RATES));
    let kinds = Kinds {
        interrupt: false,
        eviction: false,
        snoop: false,
        drain: true,
    };
    Lot::new(chance, one_in, kinds)
}
