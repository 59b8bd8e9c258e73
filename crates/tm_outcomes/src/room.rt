//! Steps that wait for room among the stores of their core that are pending.
//!
//! A step that waits until none is pending, as one behind LOCK does, waits at any size, and does not count here.

ghost use Rattle.std.specs.Prelude.{◌≡◌, ◌↔◌, ◌<◌, IsTrue, false, length, true};
ghost use Rattle.tm_core.specs.Theorem.{StandsFor, machine_setting};
ghost use Rattle.tm_core.specs.declared.buffering.Buffering.TheVariants as buffering;
ghost use Rattle.tm_core.specs.declared.buffering.Wait.TheVariants as wait;
ghost use Rattle.tm_outcomes.specs.Nodes.{IsNodeState};
ghost use Rattle.tm_outcomes.specs.Outcomes.{trial_setting};
ghost use Rattle.tm_outcomes.specs.Schedules.{Situation};
ghost use Rattle.tm_outcomes.specs.Verdicts.{HasWaited, HasWaiting, WaitsForRoom};

use crate::nodes::NodeState;
use crate::place::Place;
use crate::task::Task;
use tm_core::{Buffering, Wait};

impl Place {
    // Whether the next step of a core waits for room.
    fn is_waiting(&self, core: u8) -> bool
        requires { core < length self.now.machine.views }
        ensures { (now : Situation) → StandsFor self.now.machine now.state now.doomed →
            (IsTrue result ↔ WaitsForRoom (machine_setting self.now.machine) now core) }
    {
        match self.machine.ahead(core) {
            Ok(told) => is_for_room(told),
            Err(_) => unreachable!(),
        }
    }

    /// Whether the next step of some core waits for room.
    pub fn has_waiting(&self) -> bool
        ensures { (now : Situation) → StandsFor self.now.machine now.state now.doomed →
            (IsTrue result ↔ HasWaiting (machine_setting self.now.machine) now) }
    {
        for core in 0..self.machine.cores() {
            if self.is_waiting(core) {
                return true;
            }
        }
        false
    }
}

// Whether this is a step that waits for room.
fn is_for_room(told: Buffering) -> bool
    ensures { IsTrue result ↔ (told ≡ buffering.Waits wait.ForRoom) }
{
    match told {
        Buffering::Waits(Wait::ForRoom) => true,
        Buffering::Waits(Wait::ForNone) => false,
        Buffering::Pends => false,
        Buffering::Goes => false,
    }
}

// Whether a step waits for room at this place, or did before.
fn has_waited(before: bool, place: &Place) -> bool
    ensures before { result ≡ false → before ≡ false }
    ensures here { result ≡ false → (now : Situation) → StandsFor place.now.machine now.state now.doomed →
        HasWaiting (machine_setting place.now.machine) now → ⊥ }
    ensures some { result ≡ true → before ≡ false → (now : Situation) →
        StandsFor place.now.machine now.state now.doomed → HasWaiting (machine_setting place.now.machine) now }
{
    if before {
        return true;
    }
    place.has_waiting()
}

/// Takes up whether a step waits for room at the state of a node, where none was found before.
pub fn take_up_wait(_task: &Task<'_>, at: &NodeState<'_>, waited: &mut bool)
    requires at { IsNodeState _task.now.trial at.now }
    requires waited { waited.old ≡ true → HasWaited _task.now.trial }
    ensures waited { waited.new ≡ true → HasWaited _task.now.trial }
    ensures kept { waited.new ≡ false → waited.old ≡ false }
    ensures found { waited.new ≡ false → (now : Situation) →
        StandsFor at.now.place.now.machine now.state now.doomed →
        HasWaiting (trial_setting _task.now.trial) now → ⊥ }
{
    *waited = has_waited(*waited, at.place);
}
