//! Round by round: each core one step, in the order of their numbers.
//!
//! [`Turn::next`] goes on behind the core that it picked last, also where that one has stopped since. It draws
//! nothing and heeds nothing; where a round begins is said by [`Turn::behind`].

ghost use Rattle.std.specs.Prelude.{◌≡◌, ◌<◌, Contains, Some, length};
ghost use Rattle.tm_pick.specs.Turns.{IsInTurn};

use crate::going::Going;

/// Each core that has not stopped once a round, in the order of their numbers.
#[derive(Drop)]
pub struct Turn {
    // The core that stepped last.
    last: Option<u8>,
}

impl Turn {
    /// Goes on behind this core, or begins with the first one where there is none.
    pub fn behind(last: Option<u8>) -> Turn
        ensures { result.last ≡ last }
    {
        Turn { last }
    }

    /// The core of the next step.
    pub fn next(&mut self, going: &Going) -> u8
        requires { 0 < length going.now }
        ensures among { Contains going.now result }
        ensures turn { IsInTurn self.old.last going.now result }
        ensures last { self.new.last ≡ Some result }
    {
        let core = going.in_turn(self.last);
        self.last = Some(core);
        core
    }
}
