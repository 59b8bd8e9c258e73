//! The drains of a schedule that is drawn, where stores may be pending and `--events` names no drains.
//!
//! Round by round each step of every third round is a drain: that depends on no program, and every store drains in the
//! end. By chance they are those of the first run of `hunt` with the same seed ([`Drains`]). A drain where none of the
//! core's stores is pending is the step (`tm_core`), and an event that `--events` asks for goes before it.

ghost use Rattle.std.specs.Prelude.{◌≡◌, None};
ghost use Rattle.tm_pick.specs.Drains.{first_event};
ghost use Rattle.elide_setup.specs.OwnDrains.{AreOwnDrains, Befalls, drain_of, next_round, round_of, rounds_on};

use tm_model::{Event, Pick};
use tm_pick::Drains;

/// What tells of each step of a schedule that is drawn whether it is a drain.
#[derive(Drop)]
pub enum OwnDrains {
    /// By chance.
    ByChance(Drains),
    /// Round by round.
    InTurn(Rounds),
}

/// The rounds of a schedule round by round, in which each core steps that has not stopped.
#[derive(Clone, Copy, PartialEq, Eq)]
pub struct Rounds {
    /// The one that the last step was of.
    pub round: Round,
    /// The core of that step.
    pub last: Option<u8>,
}

/// Which of three rounds one is.
#[derive(Clone, Copy, PartialEq, Eq)]
pub enum Round {
    /// One of steps.
    First,
    /// Another one.
    Second,
    /// One of drains.
    Drains,
}

impl Round {
    // The next one.
    fn next(self) -> Round
        ensures { result ≡ next_round self }
    {
        match self {
            Round::First => Round::Second,
            Round::Second => Round::Drains,
            Round::Drains => Round::First,
        }
    }

    // The drain that a step of it is, if any.
    fn drain(self) -> Option<Event>
        ensures { result ≡ drain_of self }
    {
        match self {
            Round::First | Round::Second => None,
            Round::Drains => Some(Event::Drain),
        }
    }
}

impl Rounds {
    // The round of the next step, which is a core's.
    fn round_of(self, core: u8) -> Round
        ensures { result ≡ round_of self core }
    {
        match self.last {
            Some(last) => {
                if core <= last {
                    self.round.next()
                } else {
                    self.round
                }
            }
            None => self.round,
        }
    }

    // The event of the next step, which is a core's and came under this one so far.
    fn befall(&mut self, core: u8, event: Option<Event>) -> Option<Event>
        ensures event { result ≡ first_event event (drain_of (round_of self.old core)) }
        ensures behind { self.new ≡ rounds_on self.old core }
    {
        self.round = self.round_of(core);
        self.last = Some(core);
        match event {
            Some(event) => Some(event),
            None => self.round.drain(),
        }
    }
}

impl OwnDrains {
    /// Those of the schedule of a seed; of one round by round, where there is none.
    pub fn of(seed: Option<u32>) -> OwnDrains
        ensures { AreOwnDrains seed result }
    {
        match seed {
            Some(seed) => OwnDrains::ByChance(Drains::of_run(seed, 0, 1)),
            None => OwnDrains::InTurn(Rounds {
                round: Round::First,
                last: None,
            }),
        }
    }

    /// The next step, which is picked so: with its event, or else under a drain where it is one.
    pub fn befall(&mut self, pick: Pick) -> Pick
        ensures core { result.core ≡ pick.core }
        ensures event { Befalls self.old pick.core pick.event result.event self.new }
    {
        let event = match self {
            OwnDrains::ByChance(drains) => drains.befall(pick.event),
            OwnDrains::InTurn(rounds) => rounds.befall(pick.core, pick.event),
        };
        Pick { event, ..pick }
    }
}
