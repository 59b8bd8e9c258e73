//! What is kept of the steps of a run that is drawn.
//!
//! A [`Keeper`] is handed each step behind its making, with its outcome: an event that aborted nothing is left out by
//! [`pick_told`]. Here stand the two that need no file, [`Unkept`] and a list in memory; the one that writes a schedule
//! is in `recording`.

ghost use Rattle.std.specs.Prelude.{◌≡◌, ◌++◌, ◌∷◌, [], ⊤, IfErr, List, OnOk};
ghost use Rattle.tm_model.specs.Runs.{pick_of};
ghost use Rattle.tm_model.specs.declared.outcome.Outcome.{Outcome};
ghost use Rattle.tm_model.specs.declared.outcome.Pick.{Pick};
ghost use Rattle.elide_setup.specs.Schedules.{picks_told};
ghost use Rattle.elide_setup.specs.declared.fault.Fault.TheVariants as fault;
ghost use Rattle.elide_setup.specs.declared.fault.Refusal.{Refusal};
ghost use Rattle.elide_setup.specs.declared.fault.Refusal.TheVariants as refusal;
ghost use Rattle.tm_core.specs.declared.fault.RunFault.TheVariants as run;

use crate::fault::{Fault, Refusal};
use tm_core::RunFault;
use tm_hist::event_of;
use tm_model::{Outcome, Pick};

/// Keeps the steps that are drawn, or not. A type for each way, so that a walk that keeps none pays nothing for it.
pub trait Keeper {
    // What is kept of steps, each a pick with its outcome.
    ghost keeps: { Self → List (Pick × Outcome) → Self → Type 0 };

    // Why a step may not be kept.
    ghost fails: { Refusal → Type 0 };

    /// Keeps a step.
    fn keep(&mut self, pick: Pick, outcome: Outcome) -> Result<(), Refusal>
        ensures kept { OnOk result (keeps self.old ((pick, outcome) ∷ []) self.new) }
        ensures failed { IfErr result fails };
}

/// Keeps none.
#[derive(Clone, Copy)]
pub struct Unkept;

impl Keeper for Unkept {
    ghost keeps = { λ _ _ _. ⊤ };

    ghost fails = { λ _. ⊥ };

    #[inline(always)]
    fn keep(&mut self, _pick: Pick, _outcome: Outcome) -> Result<(), Refusal> {
        Ok(())
    }
}

/// A list of the picks, each with the event that aborted it.
impl Keeper for Vec<Pick> {
    ghost keeps = { λ before steps after. after.items ≡ before.items ++ picks_told steps };

    ghost fails = { λ why. why ≡ refusal.Fault (fault.Run run.NoMemory) };

    #[inline(always)]
    fn keep(&mut self, pick: Pick, outcome: Outcome) -> Result<(), Refusal> {
        match self.push(pick_told(pick, outcome)) {
            Ok(()) => Ok(()),
            Err(_) => Err(Refusal::Fault(Fault::Run(RunFault::NoMemory))),
        }
    }
}

/// A step's pick under the event that its outcome tells.
pub fn pick_told(pick: Pick, outcome: Outcome) -> Pick
    ensures { result ≡ pick_of (pick.core, outcome) }
{
    let event = event_of(outcome);
    Pick { event, ..pick }
}
