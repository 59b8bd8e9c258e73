//! What picks each step: a way to pick cores, and beside it the draw of events.
//!
//! Of each step, [`Picker::heeds`] comes first, of the machine behind the step before, and then [`Picker::next`]
//! with its answer and the cores that have not stopped. An event of a list goes before one that is drawn. The step
//! is made by the caller, who also takes stopped cores out of [`Going`].

ghost use Rattle.std.specs.Prelude.{◌≡◌, ◌<◌, ◌≤◌, ℕ, Contains, IfNone, IfSome, None, Some, false, length};
ghost use Rattle.tm_pick.specs.Befalls.{IsDrawnEvent};
ghost use Rattle.tm_pick.specs.Begun.{IsManner};
ghost use Rattle.tm_pick.specs.Chances.{generator_of, number_of_run, words_of};
ghost use Rattle.tm_pick.specs.Choices.{IsPicked};
ghost use Rattle.tm_pick.specs.Drains.{first_event};
ghost use Rattle.tm_pick.specs.Lots.{kinds_drawn};
ghost use Rattle.tm_pick.specs.Methods.{IsDrawnBy};
ghost use Rattle.tm_pick.specs.declared.method.Method.TheVariants as method;
ghost use Rattle.tm_pick.specs.Kinds.{AreAmong, AreOfKinds, IsOfKinds, no_kinds};
ghost use Rattle.tm_pick.specs.Sources.{both_kinds, is_listed, kinds_listed, turn_of};
ghost use Rattle.tm_pick.specs.Turns.{IsInTurn};
ghost use Rattle.tm_pick.specs.declared.kinds.Kinds.{Kinds};

use crate::bursts::Bursts;
use crate::chance::Chance;
use crate::front::Front;
use crate::going::Going;
use crate::interferer::Interferer;
use crate::kinds::Kinds;
use crate::lot::Lot;
use crate::manner::Manner;
use crate::priorities::Priorities;
use crate::seen::{Draws, Seen};
use crate::tail::most_in_a_row;
use crate::turn::Turn;
use ia_image::Program;
use std::marker::Model;
use tm_core::Machine;
use tm_model::{Event, Pick};

/// What picks one step after another: its core, and the event that it comes under, if any. Contracts see the kinds of
/// the events that may come, and whose turn it is, where it goes round by round.
#[derive(Drop)]
pub struct Picker<'a> {
    manner: Manner<'a>,
    // By what its events are drawn, besides those of a list.
    lot: Option<Lot>,
}

impl<'a> Model for Picker<'a> {
    ghost use Rattle.tm_pick.specs.Lots.{kinds_drawn};
    ghost use Rattle.tm_pick.specs.Shown.{Picks};
    ghost use Rattle.tm_pick.specs.Sources.{both_kinds, kinds_listed, turn_of};

    ghost Value = { Picks };

    ghost view = { λ picker. record {
      kinds = both_kinds (kinds_listed picker.manner) (kinds_drawn picker.lot);
      turn = turn_of picker.manner;
      manner = picker.manner;
      lot = picker.lot;
    } };
}

impl<'a> Picker<'a> {
    /// Round by round, from core 0 on.
    pub fn in_turn() -> Picker<'a>
        ensures kinds { result.kinds ≡ no_kinds }
        ensures turn { result.turn ≡ Some None }
    {
        Picker::of_manner(Manner::InTurn(Turn::behind(None)))
    }

    /// Each core as likely as another, by this seed.
    pub fn random(seed: u32) -> Picker<'a>
        ensures kinds { result.kinds ≡ no_kinds }
        ensures cores { (cores length : ℕ) →
            IsManner method.Uniform 0 cores length (generator_of (number_of_run seed 0)) result.manner }
    {
        Picker::uniform(Chance::of_run(seed, 0))
    }

    /// The steps of a list, of which those of cores that have stopped are left out; and behind them one core after
    /// another to its end, the core of the last step first, under no events. A core gives way where it is at a PAUSE,
    /// and after twice so many steps in a row as the run takes, about, and 400 at least.
    #[tactic(auto, using(crate::proofs::OfKinds::listed_among))]
    pub fn front(steps: &'a [Pick], length: u32) -> Picker<'a>
        ensures { (kinds : Kinds) → AreOfKinds kinds steps.now → AreAmong result.kinds kinds }
    {
        Picker::of_manner(Manner::Front(Front::to_the_ends(steps, length)))
    }

    /// The steps of a list, of which those of cores that have stopped are left out; and behind them each core in turn,
    /// the one behind the core of the last step first, under no events.
    #[tactic(auto, using(crate::proofs::OfKinds::listed_among))]
    pub fn front_in_turn(steps: &'a [Pick]) -> Picker<'a>
        ensures { (kinds : Kinds) → AreOfKinds kinds steps.now → AreAmong result.kinds kinds }
    {
        Picker::of_manner(Manner::Front(Front::in_turn(steps)))
    }

    // Each core as likely as another.
    pub(crate) fn uniform(chance: Chance) -> Picker<'a>
        ensures kinds { result.kinds ≡ no_kinds }
        ensures manner { (run cores length : ℕ) →
            IsManner method.Uniform run cores length (words_of chance) result.manner }
    {
        Picker::of_manner(Manner::Uniform(chance))
    }

    // Bursts of random length.
    pub(crate) fn bursts(chance: Chance) -> Picker<'a>
        ensures kinds { result.kinds ≡ no_kinds }
        ensures manner { (run cores length : ℕ) →
            IsManner method.Bursts run cores length (words_of chance) result.manner }
    {
        Picker::of_manner(Manner::Bursts(Bursts::new(chance)))
    }

    // Drawn so where other cores see it, in a run that takes about so many steps.
    pub(crate) fn seen(draws: Draws, chance: Chance, length: u32) -> Picker<'a>
        ensures kinds { result.kinds ≡ no_kinds }
        ensures manner { (run cores : ℕ) → IsDrawnBy run draws →
            IsManner method.Seen run cores length (words_of chance) result.manner }
    {
        Picker::of_manner(Manner::Seen(Seen::new(draws, chance, most_in_a_row(length))))
    }

    // By random priorities of so many cores, in a run that takes about so many steps.
    pub(crate) fn priorities(chance: Chance, cores: u8, length: u32) -> Picker<'a>
        requires { cores ≤ 64 }
        ensures kinds { result.kinds ≡ no_kinds }
        ensures manner { (run : ℕ) →
            IsManner method.Priorities run cores length (words_of chance) result.manner }
    {
        let going = Going::all(cores);
        Picker::of_manner(Manner::Priorities(Priorities::new(chance, &going, length)))
    }

    /// What it heeds of the core of the step before, which it is told for the next step: whether the core is at a
    /// PAUSE, by which a loop that waits for another core gives way, or whether no other core sees the core's next
    /// step. False where it heeds nothing. The machine is one of the program.
    pub fn heeds(&self, program: &Program, machine: &Machine, core: u8) -> bool {
        self.manner.heeds(program, machine, core)
    }

    /// How many steps of its list were made; 0 where it has none.
    pub fn made_of_list(&self) -> usize {
        match &self.manner {
            Manner::Front(front) => front.made(),
            _ => 0,
        }
    }

    // Picks in this manner, under no events but those of its list.
    #[tactic(auto, using(crate::proofs::OfKinds::list_alone))]
    fn of_manner(manner: Manner<'a>) -> Picker<'a>
        ensures kinds { result.kinds ≡ kinds_listed manner.entry }
        ensures turn { result.turn ≡ turn_of manner.entry }
        ensures manner { result.manner ≡ manner.entry }
    {
        Picker { manner, lot: None }
    }

    /// What this one picks, under these events besides those of its list.
    pub fn under(self, interferer: Interferer) -> Picker<'a>
        ensures kinds { self.entry.kinds ≡ no_kinds → result.kinds ≡ interferer }
        ensures turn { result.turn ≡ self.entry.turn }
        ensures manner { result.manner ≡ self.entry.manner }
    {
        self.under_lot(interferer.into_lot())
    }

    // As [`Picker::under`], with events that are drawn by this, where there is one.
    #[tactic(auto, using(crate::proofs::OfKinds::draw_alone))]
    pub(crate) fn under_lot(self, lot: Option<Lot>) -> Picker<'a>
        ensures kinds { self.entry.kinds ≡ no_kinds → result.kinds ≡ kinds_drawn lot }
        ensures turn { result.turn ≡ self.entry.turn }
        ensures manner { result.manner ≡ self.entry.manner }
        ensures lot { result.lot ≡ lot }
    {
        Picker {
            manner: self.manner,
            lot,
        }
    }

    /// The next step: a core that has not stopped, and its event, if any. It is told what it heeds
    /// ([`Picker::heeds`]).
    pub fn next(&mut self, going: &Going, told: bool) -> Pick
        requires { 0 < length going.now }
        ensures core { Contains going.now result.core }
        ensures event { IsOfKinds self.old.kinds result.event }
        ensures never { self.old.kinds ≡ no_kinds → result.event ≡ None }
        ensures same { self.new.kinds ≡ self.old.kinds }
        ensures turn { IfSome self.old.turn (λ last. IsInTurn last going.now result.core) }
        ensures goes_on { IfSome self.old.turn (λ last. self.new.turn ≡ Some (Some result.core)) }
        ensures other { IfNone self.old.turn (self.new.turn ≡ None) }
        ensures drawn { is_listed self.old.manner ≡ false → IsDrawnEvent self.old.lot result.event self.new.lot }
        ensures picked { IsPicked told self.old.manner going.now result.core self.new.manner }
    {
        // Drawn for each step, also where the list has an event, so that no event moves those behind it.
        let drawn = next_event(&mut self.lot);
        let pick = self.manner.next(going, told);
        Pick {
            core: pick.core,
            event: first_of(pick.event, drawn),
        }
    }
}

/// The event that is drawn for the next step, if any.
#[inline(always)]
pub fn next_event(lot: &mut Option<Lot>) -> Option<Event>
    ensures kinds { IsOfKinds (kinds_drawn lot.old) result }
    ensures same { kinds_drawn lot.new ≡ kinds_drawn lot.old }
    ensures drawn { IsDrawnEvent lot.old result lot.new }
{
    match lot {
        None => None,
        Some(lot) => lot.next(),
    }
}

/// The event of a list, or else the one that was drawn.
#[inline(always)]
#[tactic(auto, using(crate::proofs::OfKinds::of_left, crate::proofs::OfKinds::of_right))]
pub fn first_of(listed: Option<Event>, drawn: Option<Event>) -> Option<Event>
    ensures alone { listed ≡ None → result ≡ drawn }
    ensures first { result ≡ first_event listed drawn }
    ensures kinds { (kinds others : Kinds) → IsOfKinds kinds listed → IsOfKinds others drawn →
        IsOfKinds (both_kinds kinds others) result }
{
    match listed {
        Some(event) => Some(event),
        None => drawn,
    }
}
