//! Rounds whose order is drawn: each core once, then a new order.
//!
//! [`Rounds::next`] passes over cores that have stopped since the round was drawn, and draws the next round only
//! when this one is used up. A round counts the steps for which `seen` asks, not those of a core that goes on
//! without a draw.

ghost use Rattle.std.specs.Prelude.{◌≡◌, ◌<◌, [], Contains, length};
ghost use Rattle.tm_pick.specs.Chances.{words_of};
ghost use Rattle.tm_pick.specs.Choices.{IsOfRound};

use crate::chance::Chance;
use crate::going::Going;
use crate::priorities::shuffled;
use arrayvec::ArrayVec;

/// Rounds in each of which every core that has not stopped is drawn once, in an order by chance.
#[derive(Drop)]
pub struct Rounds {
    // The cores that are left of this round, the next one last.
    left: ArrayVec<u8, 64>,
}

impl Rounds {
    /// Before the first round.
    pub fn new() -> Rounds
        ensures { result.left.items ≡ [] }
    {
        Rounds {
            left: ArrayVec::new(),
        }
    }

    /// The core that is drawn next.
    pub fn next(&mut self, chance: &mut Chance, going: &Going) -> u8
        requires { 0 < length going.now }
        ensures among { Contains going.now result }
        ensures drawn { IsOfRound going.now (words_of chance.old) self.old.left.items result
            self.new.left.items (words_of chance.new) }
    {
        'left: while let Some(core) = self.left.pop() {
            if going.contains(core) {
                return core;
            }
        }
        self.left = shuffled(chance, going);
        self.left.pop().unwrap()
    }
}
