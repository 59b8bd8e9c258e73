//! Which events come with the workers' steps.
//!
//! [`EventPlan::of_core`] gives each core draws of its own, as of the run of its number, so that they depend on no
//! thread; between which steps of other cores an event comes does. The drawing is `tm_pick`'s.

ghost use Rattle.tm_pick.specs.Drawn.{AreDrawn};

use tm_pick::{Events, Interferer};

/// How the events are drawn that come with workers' steps.
#[derive(Clone, Copy, PartialEq, Eq)]
pub struct EventPlan {
    /// How often an event comes, and of which kinds.
    pub events: Events,
    /// What they are drawn by, with the core's number and the number of its steps.
    pub seed: u32,
}

impl EventPlan {
    // The events of this core's steps.
    pub(crate) fn of_core(self, core: u8) -> Interferer
        ensures { AreDrawn self.events result }
    {
        self.events.of_run(self.seed, u32::from(core))
    }
}
