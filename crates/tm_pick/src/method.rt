//! By which method a run by chance draws its cores, and from which numbers.
//!
//! [`Plan::run`] takes the method that is asked for, or of the mix the one that the run's number says, gives it the
//! generator of the run, and then the events theirs. How each method draws stands in the module of its name.

ghost use Rattle.std.specs.Prelude.{◌≡◌, ◌≢◌, ◌≤◌};
ghost use Rattle.tm_pick.specs.Begun.{AreCoresOf, AreEventsOf};
ghost use Rattle.tm_pick.specs.Drawn.{AreDrawn};
ghost use Rattle.tm_pick.specs.Kinds.{no_kinds};
ghost use Rattle.tm_pick.specs.Methods.{IsDrawnBy, method_of_run};
ghost use Rattle.tm_pick.specs.declared.method.Method.TheVariants as method;

use crate::chance::Chance;
use crate::events::Events;
use crate::picker::Picker;
use crate::rounds::Rounds;
use crate::seen::Draws;

/// How the core of each step is drawn.
#[derive(Clone, Copy, PartialEq, Eq)]
pub enum Method {
    /// By the run's number each second run drawn where other cores see it, and of the others each third uniform, in
    /// bursts, or by priorities.
    Mix,
    /// Each core as likely as another at each step.
    Uniform,
    /// Bursts of random length, whose mean is drawn for each run from 1 to 256.
    Bursts,
    /// By random priorities, of which the highest falls 1 to 3 times.
    Priorities,
    /// A core whose next step no other core sees goes on without a draw. Of the steps that others may see each core is
    /// drawn as likely as another in the runs of the numbers 0 and 1 of each four, and in rounds in the other two: each
    /// core makes one of them a round, in an order by chance.
    Seen,
}

/// What the runs of a search are drawn by.
#[derive(Clone, Copy, PartialEq, Eq)]
pub struct Plan {
    /// The seed.
    pub seed: u32,
    /// How the core of each step is drawn.
    pub method: Method,
    /// How many steps a run takes, about: up to where priorities fall, and half of how many a core makes in a row.
    pub length: u32,
    /// Which events its steps come under.
    pub events: Events,
}

impl Plan {
    /// What picks the steps of the run of this number, for a machine of so many cores: a function of the plan and the
    /// two. Its cores are drawn from the same numbers whatever its events are.
    pub fn run(self, run: u32, cores: u8) -> Picker<'static>
        requires { cores ≤ 64 }
        ensures kinds { AreDrawn self.events result.kinds }
        ensures cores { AreCoresOf self run cores result.manner }
        ensures events { AreEventsOf self.events self.seed run result.lot }
    {
        self.cores_of_run(run, cores)
            .under_lot(self.events.lot_of_run(self.seed, run))
    }

    // What picks the cores of the run of this number.
    fn cores_of_run(self, run: u32, cores: u8) -> Picker<'static>
        requires { cores ≤ 64 }
        ensures kinds { result.kinds ≡ no_kinds }
        ensures cores { AreCoresOf self run cores result.manner }
    {
        let chance = Chance::of_run(self.seed, run);
        match self.method.of_run(run) {
            Method::Bursts => Picker::bursts(chance),
            Method::Priorities => Picker::priorities(chance, cores, self.length),
            Method::Seen => Picker::seen(draws_of(run), chance, self.length),
            Method::Uniform => Picker::uniform(chance),
            Method::Mix => unreachable!(),
        }
    }
}

// How the core of a step that others may see is drawn in the run of this number, by the method that draws no other.
fn draws_of(run: u32) -> Draws
    ensures { IsDrawnBy run result }
{
    if run % 4 < 2 {
        Draws::Each
    } else {
        Draws::InRounds(Rounds::new())
    }
}

impl Method {
    // The method of the run of this number.
    fn of_run(self, run: u32) -> Method
        ensures value { result ≡ method_of_run self run }
        ensures one { result ≢ method.Mix }
    {
        match (self, run % 6) {
            (Method::Mix, 0) => Method::Uniform,
            (Method::Mix, 2) => Method::Bursts,
            (Method::Mix, 4) => Method::Priorities,
            (Method::Mix, _) => Method::Seen,
            (method, _) => method,
        }
    }
}
