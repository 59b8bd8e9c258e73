//! What makes the runs of a search, and the steps of a run.
//!
//! A [`RunSource`] is asked for a run by its number, and the [`StepSource`] that it gives for one pick after
//! another, with the machine as it stands before the step; [`PlannedRuns`] asks `tm_pick`, of which steps are drains
//! too, where stores may be pending. Steps are made by `one_run`, which also says which cores are left.

ghost use Rattle.std.specs.Prelude.{◌≡◌, ◌<◌, ◌≤◌, ℕ, List, Contains, length};
ghost use Rattle.tm_core.specs.Theorem.{ShownMachine};
ghost use Rattle.tm_model.specs.declared.outcome.Pick.{Pick};
ghost use Rattle.tm_pick.specs.Kinds.{IsOfKinds};
ghost use Rattle.tm_pick.specs.Lots.{kinds_drawn};
ghost use Rattle.tm_pick.specs.Sources.{both_kinds};
ghost use Rattle.tm_pick.specs.declared.kinds.Kinds.{Kinds};
ghost use Rattle.tm_pick.specs.declared.method.Plan.{Plan};
ghost use Rattle.tm_hunt.specs.Runs.{AreKindsOf};
ghost use Rattle.tm_hunt.specs.Sources.{BeginsByPlan, PicksNext, PicksOrDrains};

use ia_image::Program;
use std::marker::Model;
use tm_core::Machine;
use tm_model::Pick;
use tm_pick::{Drains, Going, Picker, Plan};

/// What picks the steps of a run, one after another.
pub trait StepSource {
    // The step that it picks next on a machine, where the step before was of this core, and these cores have not
    // stopped; and what picks the step behind it.
    ghost picks: { Self → ShownMachine → ℕ → List ℕ → Pick → Self → Type 0 };

    // The kinds of the events that its steps come under.
    ghost kinds: { Self → Kinds };

    /// The next step, of a core that has not stopped, with its event, if any. It sees the machine, which is one of the
    /// program, and the core of the step before, 0 before the first one.
    fn next_step(&mut self, program: &Program, machine: &Machine, last: u8, going: &Going) -> Pick
        requires { 0 < length going.now }
        ensures core { Contains going.now result.core }
        ensures picked { picks self.old machine.now last going.now result self.new }
        ensures event { IsOfKinds (kinds self.old) result.event }
        ensures same { kinds self.new ≡ kinds self.old };
}

/// What makes the runs of a search by their numbers.
pub trait RunSource {
    /// What picks the steps of a run.
    type Steps: StepSource + Drop;

    // What picks the steps of the run of this number by a plan, for a machine of so many cores of which so many stores
    // each may be pending.
    ghost begins: { Plan → ℕ → ℕ → ℕ → Self.Steps → Type 0 };

    /// What picks the steps of the run of this number by a plan, for a machine of so many cores of which so many stores
    /// each may be pending.
    fn run(&self, plan: Plan, number: u32, cores: u8, stores: u32) -> Self::Steps
        requires { cores ≤ 64 }
        ensures begun { begins plan number cores stores result }
        ensures kinds { AreKindsOf plan.events stores (Self.Steps.kinds result) };
}

impl StepSource for Picker<'_> {
    ghost picks = { PicksNext };

    ghost kinds = { λ picker. picker.kinds };

    fn next_step(&mut self, program: &Program, machine: &Machine, last: u8, going: &Going) -> Pick {
        let told = self.heeds(program, machine, last);
        self.next(going, told)
    }
}

/// What picks the steps of a run that a plan draws, of which some are drains where stores may be pending.
#[derive(Drop)]
pub struct PlannedSteps {
    picker: Picker<'static>,
    drains: Drains,
}

impl Model for PlannedSteps {
    ghost use Rattle.tm_hunt.specs.Sources.{PlannedPicks};

    ghost Value = { PlannedPicks };

    ghost view = { λ steps. record { picks = steps.picker; drains = steps.drains } };
}

impl StepSource for PlannedSteps {
    ghost picks = { PicksOrDrains };

    ghost kinds = { λ steps. both_kinds steps.picks.kinds (kinds_drawn steps.drains) };

    fn next_step(&mut self, program: &Program, machine: &Machine, last: u8, going: &Going) -> Pick {
        let picked = self.picker.next_step(program, machine, last, going);
        Pick {
            core: picked.core,
            event: self.drains.befall(picked.event),
        }
    }
}

/// The runs that a plan draws.
#[derive(Clone, Copy)]
pub struct PlannedRuns;

impl RunSource for PlannedRuns {
    type Steps = PlannedSteps;

    ghost begins = { BeginsByPlan };

    #[tactic(auto, using(crate::proofs::Drained::kinds_of_run))]
    fn run(&self, plan: Plan, number: u32, cores: u8, stores: u32) -> PlannedSteps {
        PlannedSteps {
            picker: plan.run(number, cores),
            drains: Drains::of_run(plan.seed, number, stores),
        }
    }
}
