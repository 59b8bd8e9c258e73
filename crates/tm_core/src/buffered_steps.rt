//! Steps where stores may be pending: those that [`Machine::step`] makes then, and drains.
//!
//! Of each core the step is made over the machine's parts, with the core's own row of stores (`store_buffer`). Whether
//! any may be pending is asked with a core's number, by [`Machine::is_direct`].

ghost use Rattle.std.specs.Prelude.{◌≡◌, ◌<◌, ◌≤◌, ◌↔◌, [], All, IfOk, IsOk, None, OnErr, Some, false, length, true};
ghost use Rattle.std.specs.Prelude.{slice_index_or, vec_capacity};
ghost use Rattle.tm_model.specs.Conflicts.{Doomed};
ghost use Rattle.tm_model.specs.State.{State};
ghost use Rattle.tm_model.specs.declared.outcome.Event.TheVariants as event;
ghost use Rattle.tm_core.specs.Buffered.{AreRows, StepsRows, pending_in};
ghost use Rattle.tm_core.specs.StoreBuffers.{IsStorable};
ghost use Rattle.tm_core.specs.Stepping.{MakesStep};
ghost use Rattle.tm_core.specs.Theorem.{SameMachine, StandsFor, TakesStepUnder, pending_at};

use crate::fault::NoSuchCore;
use crate::machine::Machine;
use crate::store_buffer::{drain_oldest, step_pending};
use crate::unbuffered::Unbuffered;
use ia_exec::Store;
use tm_model::Outcome;
use tm_quick::Listing;
use tm_rule::Code;
use tm_sets::Sets;

impl<S: Sets> Unbuffered<S> {
    /// One step of a core of which stores may be pending, at most so many: those of each core.
    #[inline(never)]
    pub fn step_pending(
        &mut self,
        core: u8,
        rows: &mut [Vec<Store>],
        under: &mut Vec<Store>,
        most: u8,
    ) -> Outcome
        requires exists { core < length self.old.views }
        requires row { core < length rows.old }
        requires some { 0 < most }
        requires rows { AreRows (length self.old.memory) most rows.old }
        requires under { most ≤ vec_capacity under.old }
        ensures steps { StepsRows None most self.old self.new rows.old rows.new core result }
        ensures under { vec_capacity under.new ≡ vec_capacity under.old }
    {
        let code = Code {
            bytes: &self.code,
            base: self.base,
            rows: &self.rows,
        };
        let listing = Listing {
            code,
            lines: &self.lines,
        };
        // A core may be open from now on: while stores may be pending, nobody asks whether one is.
        self.busy = true;
        step_pending(
            &listing,
            &mut self.memory,
            &mut self.cpus,
            &mut self.sets,
            core,
            &mut rows[core as usize],
            under,
            most,
        )
    }

    /// The oldest store of a core reaches memory.
    pub fn drain_oldest(&mut self, core: u8, rows: &mut [Vec<Store>], _most: u8)
        requires exists { core < length self.old.views }
        requires row { core < length rows.old }
        requires some { 0 < length (slice_index_or (pending_in rows.old) core []) }
        requires rows { AreRows (length self.old.memory) _most rows.old }
        ensures { StepsRows (Some event.Drain) _most self.old self.new rows.old rows.new core Outcome.Drained }
    {
        // As in a step: while stores may be pending, nobody asks whether a core is open.
        self.busy = true;
        drain_oldest(
            &mut self.memory,
            &mut self.cpus,
            &mut self.sets,
            core,
            &mut rows[core as usize],
        );
    }
}

impl<S: Sets> Machine<S> {
    // Whether a core makes its steps on memory itself. False where there is none of this number.
    #[inline(always)]
    pub(crate) fn is_direct(&self, core: u8) -> bool
        ensures direct { result ≡ true → self.now.store_buffer ≡ 0 }
        ensures exists { result ≡ true → core < length self.now.views }
        ensures buffered { result ≡ false → core < length self.now.views → 0 < self.now.store_buffer }
    {
        core < self.direct
    }

    // One step of a core that makes it on memory itself.
    #[inline(always)]
    pub(crate) fn step_direct(&mut self, core: u8) -> Outcome
        requires exists { core < length self.old.views }
        requires direct { self.old.store_buffer ≡ 0 }
        ensures { MakesStep self.old self.new core result }
    {
        let outcome = self.unbuffered.step(core);
        self.unbuffered.nothing_pending();
        outcome
    }

    // One step of a core that does not, or `NoSuchCore` where there is none of this number.
    #[inline(never)]
    pub(crate) fn step_elsewhere(&mut self, core: u8) -> Result<Outcome, NoSuchCore>
        requires { core < length self.old.views → 0 < self.old.store_buffer }
        ensures exists { IsOk result ↔ (core < length self.old.views) }
        ensures made { IfOk result (λ outcome. MakesStep self.old self.new core outcome) }
        ensures err { OnErr result (self.new ≡ self.old) }
    {
        if core >= self.cores() {
            return Err(NoSuchCore);
        }
        Ok(self.step_buffered(core))
    }

    // One step of a core of which stores may be pending.
    pub(crate) fn step_buffered(&mut self, core: u8) -> Outcome
        requires exists { core < length self.old.views }
        requires some { 0 < self.old.store_buffer }
        ensures { MakesStep self.old self.new core result }
    {
        let outcome = self
            .unbuffered
            .step_pending(core, &mut self.pending, &mut self.under, self.most);
        self.unbuffered.nothing_pending();
        outcome
    }

    /// The stores of a core that are not in memory yet, the oldest first. `NoSuchCore` (42).
    pub fn pending(&self, core: u8) -> Result<&[Store], NoSuchCore>
        ensures exists { IsOk result ↔ (core < length self.now.views) }
        ensures shown { IfOk result (λ stores. stores.now ≡ pending_at self.now core) }
    {
        if core >= self.cores() {
            return Err(NoSuchCore);
        }
        Ok(self.pending_of(core))
    }

    // The same of a core that there is.
    pub(crate) fn pending_of(&self, core: u8) -> &[Store]
        ensures shown { result.now ≡ pending_at self.now core }
        ensures storable { All (IsStorable (length self.now.memory)) result.now }
        ensures few { length result.now ≤ self.now.store_buffer }
    {
        let rows = self.pending.as_slice();
        if usize::from(core) >= rows.len() {
            return &[];
        }
        rows[core as usize].as_slice()
    }

    // Whether a store of a core is pending.
    pub(crate) fn has_pending(&self, core: u8) -> bool
        ensures some { result ≡ true → 0 < length (pending_at self.now core) }
        ensures none { result ≡ false → pending_at self.now core ≡ [] }
    {
        !self.pending_of(core).is_empty()
    }

    // The drain of a core of which a store is pending.
    pub(crate) fn drain_pending(&mut self, core: u8)
        requires exists { core < length self.old.views }
        requires some { 0 < length (pending_at self.old core) }
        ensures same { SameMachine self.old self.new }
        ensures ok { (state : State) (doomed : Doomed) → StandsFor self.old state doomed →
            TakesStepUnder (Some event.Drain) self.old self.new state doomed core Outcome.Drained }
    {
        self.unbuffered
            .drain_oldest(core, &mut self.pending, self.most);
        self.unbuffered.nothing_pending();
    }
}
