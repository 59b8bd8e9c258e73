//! Draws where other cores see a step, and none where they do not.
//!
//! [`Seen::next`] is told whether the next step of the core that stepped last is unseen (`unseen`): then this core
//! goes on, up to so many steps in a row. Otherwise a core is drawn, each alike or in rounds (`rounds`), and it
//! makes its step whether it is seen or not.

ghost use Rattle.std.specs.Prelude.{◌≡◌, ◌<◌, Contains, length};
ghost use Rattle.tm_pick.specs.Chances.{words_of};
ghost use Rattle.tm_pick.specs.Choices.{IsOfSeen, IsSeenDraw};

use crate::chance::Chance;
use crate::going::Going;
use crate::rounds::Rounds;

/// Draws only where other cores may see a step: a core whose next step no other core sees goes on without a draw, for
/// at most so many steps in a row.
#[derive(Drop)]
pub struct Seen {
    draws: Draws,
    chance: Chance,
    most: u32,
    last: u8,
    in_a_row: u32,
}

/// How the core of a step that others may see is drawn.
#[derive(Drop)]
pub enum Draws {
    /// Each core as likely as another.
    Each,
    /// Each core once a round.
    InRounds(Rounds),
}

impl Seen {
    /// Draws so and by this chance, and after so many unseen steps of a core in a row.
    pub fn new(draws: Draws, chance: Chance, most: u32) -> Seen
        ensures draws { result.draws ≡ draws }
        ensures chance { words_of result.chance ≡ words_of chance }
        ensures most { result.most ≡ most }
        ensures none_in_a_row { result.in_a_row ≡ 0 }
    {
        Seen {
            draws,
            chance,
            most,
            last: u8::MAX,
            in_a_row: 0,
        }
    }

    /// The core of the next step. It is told whether no other core sees the next step of the core of the step before.
    pub fn next(&mut self, going: &Going, unseen: bool) -> u8
        requires { 0 < length going.now }
        ensures among { Contains going.now result }
        ensures drawn { IsOfSeen unseen self.old going.now result self.new }
    {
        if unseen && self.in_a_row < self.most && going.contains(self.last) {
            self.in_a_row = self.in_a_row.saturating_add(1);
            return self.last;
        }
        self.in_a_row = 0;
        let core = self.draws.next(&mut self.chance, going);
        self.last = core;
        core
    }
}

impl Draws {
    // The core of the next step that others may see.
    fn next(&mut self, chance: &mut Chance, going: &Going) -> u8
        requires { 0 < length going.now }
        ensures among { Contains going.now result }
        ensures drawn { IsSeenDraw self.old going.now (words_of chance.old) result self.new (words_of chance.new) }
    {
        match self {
            Draws::Each => chance.any(going),
            Draws::InRounds(rounds) => rounds.next(chance, going),
        }
    }
}
