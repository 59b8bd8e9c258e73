//! Machines whose steps are told as they are made: [`Telling`] makes them by whatever [`StepTeller`] tells them.
//!
//! The line of a step is written at once, on the page that the machine goes with; one that is not written ends a walk.
//! Which steps have a line, and which text, is the teller's own; what steps the machine makes is the walk's.

ghost use Rattle.std.specs.Prelude.{ℕ, IfErr, IfOk, List};
ghost use Rattle.text_out.specs.Writing.{Wrote};
ghost use Rattle.elide_setup.specs.Runs.{AreMachineSteps, IsMachineStep};
ghost use Rattle.elide_setup.specs.declared.fault.Refusal.{Refusal};
ghost use Rattle.elide_why.specs.Refused.{IsUntoldStep};
ghost use Rattle.tm_core.specs.Theorem.{ShownMachine as Machine};
ghost use Rattle.tm_model.specs.declared.outcome.Pick.{Pick};

use crate::teller::Teller;
use elide_device::Gathered;
use elide_setup::{Refusal, StepMaker};
use text_out::Out;
use tm_core::Machine;
use tm_model::{Outcome, Pick};

/// What makes a machine's step and tells of it. A trait, since what a walk comes to is known of a maker whose type
/// names no lifetime.
pub trait StepTeller {
    // Why a machine's step of a pick may be refused.
    ghost refuses: { Machine → Pick → Refusal → Type 0 };

    /// Makes a step, and writes its line.
    fn tell_step<O: Out>(
        &mut self,
        machine: &mut Machine,
        pick: Pick,
        out: &mut O,
    ) -> Result<Outcome, Refusal>
        ensures step { IfOk result (λ outcome. IsMachineStep machine.old pick outcome machine.new) }
        ensures told { IfOk result (λ _. (text : List ℕ) × Wrote (O.device out.old) (O.device out.new) text) }
        ensures refused { IfErr result (refuses machine.old pick) };
}

impl StepTeller for Teller<'_> {
    ghost refuses = { IsUntoldStep };

    fn tell_step<O: Out>(
        &mut self,
        machine: &mut Machine,
        pick: Pick,
        out: &mut O,
    ) -> Result<Outcome, Refusal> {
        self.step(machine, pick, out)
    }
}

/// A machine whose steps are told.
#[derive(Drop)]
pub struct Telling<T, O> {
    /// The machine.
    pub machine: Machine,
    /// What tells of its steps.
    pub teller: T,
    /// Where their lines are written.
    pub page: Gathered<O>,
}

impl<T: StepTeller, O: Out> StepMaker for Telling<T, O> {
    ghost takes = { λ before steps after. AreMachineSteps before.machine steps after.machine
        × (text : List ℕ)
        × Wrote (⟦<Gathered<O> as Out>⟧.device before.page) (⟦<Gathered<O> as Out>⟧.device after.page) text };

    ghost refuses = { λ before pick why. T.refuses before.machine pick why };

    fn make_step(&mut self, pick: Pick) -> Result<Outcome, Refusal> {
        self.teller
            .tell_step(&mut self.machine, pick, &mut self.page)
    }
}
