//! Bursts: steps of one core side by side, whose length is drawn.
//!
//! The mean is drawn once, by [`Bursts::new`]. [`Bursts::next`] then draws at each step whether the core goes on,
//! and where it does not, or has stopped, draws one of all cores, which may be the same again. A core at a PAUSE
//! gets no other chance.

ghost use Rattle.std.specs.Prelude.{◌≤◌, ◌<◌, Contains, length};

use crate::chance::{Chance, power_of_two};
use crate::going::Going;

/// How many mean lengths there are: 1, 2, 4 and so on, up to 256 steps.
const LENGTHS: u32 = 9;

/// Bursts of a mean length that is drawn once: after each step of a core it goes on with the same chance.
#[derive(Drop)]
pub struct Bursts {
    chance: Chance,
    mean: u32,
    last: u8,
    ghost some: { 1 ≤ mean },
}

impl Bursts {
    ghost use Rattle.tm_pick.specs.Begun.{AreBursts};
    ghost use Rattle.tm_pick.specs.Chances.{words_of};
    ghost use Rattle.tm_pick.specs.Choices.{IsOfBursts};

    /// Bursts of a mean length from 1 to 256.
    pub fn new(mut chance: Chance) -> Bursts
        ensures { AreBursts (words_of chance) result }
    {
        let mean = power_of_two(chance.below(LENGTHS));
        let last = u8::MAX;
        Bursts { chance, mean, last }
    }

    /// The core of the next step.
    pub fn next(&mut self, going: &Going) -> u8
        requires { 0 < length going.now }
        ensures among { Contains going.now result }
        ensures drawn { IsOfBursts self.old going.now result self.new }
    {
        // Drawn also where the core has stopped.
        let goes_on = self.chance.below(self.mean) != 0;
        if goes_on && going.contains(self.last) {
            return self.last;
        }
        let core = self.chance.any(going);
        self.last = core;
        core
    }
}
