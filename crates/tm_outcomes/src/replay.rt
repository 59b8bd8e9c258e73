//! The run of a schedule, from before the first step on.
//!
//! Steps of one core under no event that stand side by side in a schedule are made by one call, in which a step costs a
//! third of what it costs by itself.

ghost use Rattle.std.specs.Prelude.{◌≡◌, ◌<◌, ◌≤◌, ◌-◌, ◌^◌, ◌++◌, ◌∷◌, [], All, List, length, replicate, true};
ghost use Rattle.tm_model.specs.declared.outcome.Pick.{Pick};
ghost use Rattle.tm_outcomes.specs.Nodes.{HaveSchedules, IsOnWay, IsPickOf, steps_along};
ghost use Rattle.tm_outcomes.specs.Places.{IsAhead, IsAt, IsPlaceOf, alone};
ghost use Rattle.tm_outcomes.specs.Written.{IsPlaceIn, IsWithin};

use crate::nodes::Node;
use crate::place::Place;
use crate::trial::Trial;
use crate::written::Written;
use tm_model::Pick;

/// How many steps side by side are made by one call: fewer cost less one by one.
const SHORTEST: u32 = 3;

/// Steps of a schedule that are still to be made: so many of this core, under no event.
#[derive(Clone, Copy)]
pub struct Ahead {
    pub core: u8,
    pub count: u32,
}

// Whether it is a step of this core under no event.
fn is_alone(pick: Pick, core: u8) -> bool
    ensures { result ≡ true → pick ≡ alone core }
{
    pick == Pick { core, event: None }
}

// Whether it can be made with the steps that are ahead.
fn is_behind(pick: Pick, ahead: Ahead) -> bool
    ensures alone { result ≡ true → pick ≡ alone ahead.core }
    ensures room { result ≡ true → ahead.count < 2 ^ 32 - 1 }
{
    ahead.count < u32::MAX && is_alone(pick, ahead.core)
}

impl Place {
    // At least one step of a core under no event, and at most so many. Answers how many.
    fn some_alone(&mut self, trial: &Trial<'_>, core: u8, most: u32) -> u32
        requires place { IsPlaceOf trial.now self.old }
        requires core { core < length trial.now.program.now.entries }
        requires some { 1 ≤ most }
        ensures at { (schedule : List Pick) → IsAt trial.now self.old schedule →
            IsAt trial.now self.new (schedule ++ replicate result (alone core)) }
        ensures place { IsPlaceOf trial.now self.new }
        ensures some { 1 ≤ result }
        ensures most { result ≤ most }
    {
        // A step that waits is told as a drain, so that it is made by itself.
        if most < SHORTEST || trial.limits.stores > 0 {
            self.step(trial, Pick { core, event: None });
            return 1;
        }
        let Ok(made) = self.machine.steps_alone(core, most) else {
            unreachable!();
        };
        made
    }

    // So many steps of a core under no event.
    fn steps_alone(&mut self, trial: &Trial<'_>, core: u8, count: u32)
        requires place { IsPlaceOf trial.now self.old }
        requires core { 0 < count → core < length trial.now.program.now.entries }
        ensures at { (schedule : List Pick) → IsAt trial.now self.old schedule →
            IsAt trial.now self.new (schedule ++ replicate count (alone core)) }
        ensures place { IsPlaceOf trial.now self.new }
    {
        let mut made = 0;
        'steps: while made < count {
            made += self.some_alone(trial, core, count - made);
        }
    }

    // Takes up a step behind those that are ahead, where it is of the same core under no event; else these are made.
    fn take_up(&mut self, trial: &Trial<'_>, ahead: Ahead, pick: Pick) -> Ahead
        requires place { IsPlaceOf trial.now self.old }
        requires core { 0 < ahead.count → ahead.core < length trial.now.program.now.entries }
        requires pick { pick.core < length trial.now.program.now.entries }
        ensures ahead { (schedule : List Pick) → IsAhead trial.now self.old ahead schedule →
            IsAhead trial.now self.new result (schedule ++ pick ∷ []) }
        ensures core { result.core < length trial.now.program.now.entries }
        ensures place { IsPlaceOf trial.now self.new }
    {
        if is_behind(pick, ahead) {
            return Ahead {
                core: ahead.core,
                count: ahead.count + 1,
            };
        }
        self.steps_alone(trial, ahead.core, ahead.count);
        let core = pick.core;
        if is_alone(pick, core) {
            return Ahead { core, count: 1 };
        }
        self.step(trial, pick);
        Ahead { core, count: 0 }
    }

    // Takes up these steps one behind the other.
    fn take_up_all(&mut self, trial: &Trial<'_>, ahead: Ahead, steps: &[Pick]) -> Ahead
        requires place { IsPlaceOf trial.now self.old }
        requires core { 0 < ahead.count → ahead.core < length trial.now.program.now.entries }
        requires picks { All (IsPickOf trial.now) steps.now }
        ensures ahead { (schedule : List Pick) → IsAhead trial.now self.old ahead schedule →
            IsAhead trial.now self.new result (schedule ++ steps.now) }
        ensures core { 0 < result.count → result.core < length trial.now.program.now.entries }
        ensures place { IsPlaceOf trial.now self.new }
    {
        let mut ahead = ahead;
        for pick in steps {
            ahead = self.take_up(trial, ahead, *pick);
        }
        ahead
    }

    /// The end of the schedule of a node, from before the first step on: by the nodes on the way there, the last one
    /// first.
    pub fn replay(&mut self, trial: &Trial<'_>, written: &Written, nodes: &[Node], way: &[u32])
        requires tree { HaveSchedules trial.now nodes.now }
        requires way { All (IsOnWay (length nodes.now)) way.now }
        requires place { IsPlaceIn trial.now written.now self.old }
        requires within { IsWithin trial.now written.now.lines.items (steps_along nodes.now way.now) }
        ensures at { IsAt trial.now self.new (steps_along nodes.now way.now) }
        ensures place { IsPlaceIn trial.now written.now self.new }
    {
        self.reopen(trial, written);
        let mut ahead = Ahead { core: 0, count: 0 };
        let mut left = way;
        'nodes: while let Some((index, before)) = left.split_last() {
            let node = &nodes[*index as usize];
            ahead = self.take_up_all(trial, ahead, node.steps.as_slice());
            left = before;
        }
        self.steps_alone(trial, ahead.core, ahead.count);
    }
}
