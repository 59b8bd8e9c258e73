//! Steps that are made and told: the machine is asked, the step is made, its line is written.
//!
//! [`Teller::step`] asks before the step, since the transaction that aborts is gone behind it; a core that the machine
//! does not have is refused by that. Who tells more of the step asks by [`Teller::ask`], and has it made by
//! [`Teller::make`]. Told is the outcome: an abort from outside comes in place of the step, whatever its reason would
//! have been. A step that is refused has no line. Memory is taken where a teller is made, for the stores that are
//! pending of a machine with store buffers, and by no step. The texts are those of `lines`, `interference` and
//! `subset`.

ghost use Rattle.std.specs.Prelude.{◌<◌, ℕ, IfErr, IfOk, List, OnOk, length};
ghost use Rattle.elide_setup.specs.Refused.{IsAnyWant, IsNoCore, IsUnwritten};
ghost use Rattle.elide_setup.specs.Runs.{IsMachineStep};
ghost use Rattle.elide_why.specs.Refused.{IsUntoldStep};
ghost use Rattle.text_out.specs.Writing.{Wrote};
ghost use Rattle.tm_why.specs.Said.{IsReachSaid};

use crate::interference::write_interference;
use crate::lines::write_abort;
use crate::outside::Outside;
use crate::subset::write_stop;
use crate::words::Words;
use elide_places::Places;
use elide_setup::{Fault, Refusal, StepMaker};
use ia_image::Program;
use std::alloc::Global;
use text_out::Out;
use tm_core::{Limits, Machine, RunFault};
use tm_hist::write_outcome;
use tm_model::{Interference, Outcome, Pick, Reach};
use tm_rule::Stop;
use tm_why::{Asked, Reason, Watch};

/// Makes the steps of a run and tells of each that aborts why it does, of each that stops where the subset ends which
/// code stands there, and of the others where they are asked for.
#[derive(Drop)]
pub struct Teller<'a> {
    program: &'a Program,
    path: &'a str,
    places: &'a Places,
    traces: bool,
    names: bool,
    watch: Watch,
    // What the machine said of the last step: asked anew of each, in place.
    asked: Asked,
}

impl<'a> Teller<'a> {
    /// Before the first step of a program, of the file at this path with these places, on a machine with these limits.
    /// `traces` says whether the steps that are no aborts are told, too. Refused for want of memory alone.
    pub fn new(
        alloc: Global,
        program: &'a Program,
        limits: Limits,
        path: &'a str,
        places: &'a Places,
        traces: bool,
    ) -> Result<Teller<'a>, Refusal>
        ensures { IfErr result IsAnyWant }
    {
        match Watch::new(alloc, limits) {
            Ok(watch) => Ok(Teller {
                program,
                path,
                places,
                traces,
                names: false,
                watch,
                asked: Asked::nothing(),
            }),
            Err(_) => Err(Refusal::Fault(Fault::Run(RunFault::NoMemory))),
        }
    }

    /// This teller; of code where the subset ends it tells or does not what it is, as `16-bit move`, where it is a
    /// known instruction.
    pub fn naming(self, names: bool) -> Teller<'a> {
        Teller { names, ..self }
    }

    // What the text of the program says of a reason.
    fn words_of(&self, reason: &Reason) -> Words<'a> {
        let words = Words::of(self.program, self.path, self.places, reason);
        if self.names { words.named() } else { words }
    }

    // What stands in the code at an address.
    fn outside_at(&self, address: u32) -> Outside<'a> {
        let outside = Outside::at(self.program, self.places, address);
        if self.names { outside.named() } else { outside }
    }

    /// Makes the step of a pick, and prints its line. Takes no memory.
    pub fn step<O: Out>(
        &mut self,
        machine: &mut Machine,
        pick: Pick,
        out: &mut O,
    ) -> Result<Outcome, Refusal>
        ensures step { IfOk result (λ outcome. IsMachineStep machine.old pick outcome machine.new) }
        ensures told { IfOk result (λ _. (text : List ℕ) × Wrote (O.device out.old) (O.device out.new) text) }
        ensures refused { IfErr result (IsUntoldStep machine.old pick) }
    {
        self.ask(machine, pick)?;
        self.make(machine, pick, out)
    }

    /// Asks a machine of the step of a pick, which is to be made next, and tells which bytes it reaches.
    #[inline(always)]
    pub fn ask(&mut self, machine: &Machine, pick: Pick) -> Result<Reach, Refusal>
        ensures core { OnOk result (pick.core < length machine.now.views) }
        ensures reach { IfOk result (IsReachSaid machine.now pick.core) }
        ensures refused { IfErr result (IsNoCore machine.now pick) }
    {
        if self.asked.anew(machine, pick.core).is_err() {
            return Err(Refusal::Fault(Fault::Run(RunFault::NoSuchCore)));
        }
        Ok(self.asked.reach)
    }

    /// Makes the step of a pick, of which the machine was asked, and prints its line. Takes no memory.
    #[inline(always)]
    pub fn make<O: Out>(
        &mut self,
        machine: &mut Machine,
        pick: Pick,
        out: &mut O,
    ) -> Result<Outcome, Refusal>
        ensures step { IfOk result (λ outcome. IsMachineStep machine.old pick outcome machine.new) }
        ensures told { IfOk result (λ _. (text : List ℕ) × Wrote (O.device out.old) (O.device out.new) text) }
        ensures refused { IfErr result (IsUntoldStep machine.old pick) }
    {
        // Both before the step: behind it no transaction is left to ask about.
        let reason = self.watch.reason(&self.asked);
        let begun = self.watch.begun(&self.asked);
        let outcome = machine.make_step(pick)?;
        self.watch.note(&self.asked, outcome);
        self.tell(outcome, reason, begun, out)?;
        Ok(outcome)
    }

    // Prints the line of a step, where it is told. Told is what came of it: an abort from outside comes in its place,
    // whatever reason it had to be one. The lines are calls of their own, so that a step that is not told clears none
    // of their texts.
    fn tell<O: Out>(
        &self,
        outcome: Outcome,
        reason: Option<Reason>,
        begun: Option<u64>,
        out: &mut O,
    ) -> Result<(), Refusal>
        ensures told { IfOk result (λ _. (text : List ℕ) × Wrote (O.device out.old) (O.device out.new) text) }
        ensures refused { IfErr result IsUnwritten }
    {
        let core = self.asked.core;
        match (outcome, reason) {
            (Outcome::AbortedBy(interference, status), _) => {
                self.tell_interference(interference, status, begun, out)?;
            }
            (Outcome::Aborted(status), Some(reason)) => {
                self.tell_abort(core, status, &reason, out)?;
            }
            (Outcome::Stopped(Stop::NotInSubset), _) => self.tell_stop(out)?,
            _ if self.traces => write_outcome(core, &outcome, out)?,
            _ => {}
        }
        Ok(())
    }

    #[inline(never)]
    fn tell_interference<O: Out>(
        &self,
        interference: Interference,
        status: u32,
        begun: Option<u64>,
        out: &mut O,
    ) -> Result<(), Refusal>
        ensures told { IfOk result (λ _. (text : List ℕ) × Wrote (O.device out.old) (O.device out.new) text) }
        ensures refused { IfErr result IsUnwritten }
    {
        let words = Words::at(self.program, self.path, self.places, self.asked.eip);
        write_interference(self.asked.core, interference, status, begun, &words, out)?;
        Ok(())
    }

    #[inline(never)]
    fn tell_abort<O: Out>(
        &self,
        core: u8,
        status: u32,
        reason: &Reason,
        out: &mut O,
    ) -> Result<(), Refusal>
        ensures told { IfOk result (λ _. (text : List ℕ) × Wrote (O.device out.old) (O.device out.new) text) }
        ensures refused { IfErr result IsUnwritten }
    {
        let words = self.words_of(reason);
        write_abort(core, status, reason, &words, out)?;
        Ok(())
    }

    #[inline(never)]
    fn tell_stop<O: Out>(&self, out: &mut O) -> Result<(), Refusal>
        ensures told { IfOk result (λ _. (text : List ℕ) × Wrote (O.device out.old) (O.device out.new) text) }
        ensures refused { IfErr result IsUnwritten }
    {
        let outside = self.outside_at(self.asked.eip);
        write_stop(self.asked.core, &outside, out)?;
        Ok(())
    }
}
