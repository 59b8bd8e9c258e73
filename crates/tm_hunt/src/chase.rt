//! Two machines on one walk, of which one goes twice as fast, until they are shown alike (Floyd's way to find a
//! loop).
//!
//! [`Chase::cycle`] lets them meet in whole rounds, then looks for the fewest rounds that lead back, and then sends
//! both out again, as far apart, to find where the loop begins. No memory is asked for. That it is a loop is not
//! promised here: `cycle` makes it once more.

ghost use Rattle.tm_hunt.specs.Chase.{IsChaseOf, SameChase};

use crate::alike::{are_cores_alike, are_same_at, first_difference};
use crate::cycle::Cycle;
use crate::trial::Trial;
use crate::walker::Walker;

/// The machines.
#[derive(Drop)]
pub struct Chase<'a> {
    /// The one that goes a round.
    pub slow: Walker<'a>,
    /// The one that goes two.
    pub fast: Walker<'a>,
    /// Where their memory differed the last time.
    pub differs_at: usize,
}

impl Chase<'_> {
    /// A loop that the walk behind so many steps may come to, in rounds of so many: its first step from which some
    /// rounds lead to what is shown alike, and the fewest such rounds. The slow one stands at its start then. Nothing
    /// where the walk ends before they meet.
    #[tactic(auto, using(crate::proofs::Cycles::chase_of))]
    pub fn cycle(&mut self, trial: &Trial<'_>, front: usize, round: usize) -> Option<Cycle>
        requires { IsChaseOf trial.now self.old }
        ensures { IsChaseOf trial.now self.new }
    {
        self.set_out(trial, front, front);
        let apart = self.meet(round)?;
        let steps = self.fewest(apart, round);
        self.set_out(trial, front, front.saturating_add(steps));
        self.go_side_by_side();
        let start = self.slow.made;
        Some(Cycle { start, steps })
    }

    // Puts them behind so many steps.
    fn set_out(&mut self, trial: &Trial<'_>, slow: usize, fast: usize)
        requires { IsChaseOf trial.now self.old }
        ensures { IsChaseOf trial.now self.new }
    {
        self.slow.go_from_start(trial, slow);
        self.fast.go_from_start(trial, fast);
    }

    // Whether they are shown alike. Memory is looked at first where it differed the last time, since that of a loop
    // that counts differs there time and again.
    fn are_alike(&mut self) -> bool
        ensures { SameChase self.old self.new }
    {
        let (slow, fast) = (&self.slow.machine, &self.fast.machine);
        if !are_same_at(slow, fast, self.differs_at) || !are_cores_alike(slow, fast) {
            return false;
        }
        let Some(address) = first_difference(slow, fast) else {
            return true;
        };
        self.differs_at = address;
        false
    }

    // Goes on until they meet: how many steps they are apart then.
    #[tactic(auto, using(crate::proofs::Cycles::chases))]
    fn meet(&mut self, round: usize) -> Option<usize>
        ensures { SameChase self.old self.new }
    {
        if round == 0 {
            return None;
        }
        let turns = self.fast.left() / 2 / round;
        'turns: for turn in 0..turns {
            self.slow.go_on(round);
            self.fast.go_on(round);
            self.fast.go_on(round);
            if self.are_alike() {
                return Some(turn.saturating_add(1).saturating_mul(round));
            }
        }
        None
    }

    // After how many steps the slow one comes to what the fast one shows, so many steps before it.
    #[tactic(auto, using(crate::proofs::Cycles::chases))]
    fn fewest(&mut self, apart: usize, round: usize) -> usize
        ensures { SameChase self.old self.new }
    {
        'rounds: for count in 1..apart {
            self.slow.go_on(round);
            if self.are_alike() {
                return count.saturating_mul(round);
            }
        }
        apart
    }

    // Goes on with both by single steps until they are shown alike.
    #[tactic(auto, using(crate::proofs::Cycles::chases))]
    fn go_side_by_side(&mut self)
        ensures { SameChase self.old self.new }
    {
        let left = self.fast.left();
        'steps: for _ in 0..left {
            if self.are_alike() {
                return;
            }
            self.slow.go_on(1);
            self.fast.go_on(1);
        }
    }
}
