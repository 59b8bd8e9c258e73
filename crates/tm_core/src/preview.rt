//! What a machine tells of a core's next step, planned once: of the step under no event. Where an event then aborts
//! the core, the step is not made: it hits nobody and reaches nothing.
//!
//! [`Machine::preview`] plans (`foretell_pending`), and [`Machine::hit_by`] then looks into the sets for one victim
//! after another; [`Machine::may_hit`] saves that where no victim is hit. The machine must not change between.

ghost use Rattle.std.specs.Prelude.{◌≡◌, ◌<◌, ◌≤◌, ℕ, [], All, Option, Some, false, length, None, IfOk, IsOk, ◌↔◌};
ghost use Rattle.tm_model.specs.declared.outcome.Event.TheVariants as event;
ghost use Rattle.tm_model.specs.Explained.{IsHitTold, IsReachTold, abort_reason};
ghost use Rattle.tm_model.specs.Conflicts.{Doomed};
ghost use Rattle.tm_model.specs.State.{State, seen_by};
ghost use Rattle.tm_core.specs.Buffered.{setting_at};
ghost use Rattle.tm_core.specs.ExplainedViews.{AreWithin, IsTold, touched_told};
ghost use Rattle.tm_core.specs.PendingStep.{stepped_pending};
ghost use Rattle.tm_core.specs.Previewed.{IsForetold, IsPreview};
ghost use Rattle.tm_core.specs.Representation.{AreLines};
ghost use Rattle.tm_core.specs.StoreBuffers.{IsStorable};
ghost use Rattle.tm_core.specs.Theorem.{StandsFor, machine_setting, pending_at, view_at};
ghost use Rattle.tm_core.specs.Types.{Lines};

use crate::explain_hit::hit_touched;
use crate::fault::NoSuchCore;
use crate::foretell::{Foretold, Touches};
use crate::foretell_pending::{foretell_pending, store_at};
use crate::machine::Machine;
use crate::unbuffered::Unbuffered;
use ia_exec::Store;
use tm_model::{AbortReason, Hit, Reach};
use tm_quick::Listing;
use tm_rule::Code;
use tm_sets::Sets;

/// What a machine tells of a core's next step, before the step is made: [`Machine::preview`]. It holds until the
/// machine changes.
#[derive(Clone, Copy, Debug)]
pub struct Preview {
    /// The core, 0 to 63.
    pub core: u8,
    /// The address of its next instruction.
    pub eip: u32,
    /// Which bytes the step loads and stores, also those that it stores in a transaction, which others see at the
    /// commit alone.
    pub reach: Reach,
    /// Why the step is an abort, where it is one.
    pub reason: Option<AbortReason>,
    touched: Touches,
}

impl<S: Sets> Machine<S> {
    // What the next step of a core comes to.
    fn foretold(&self, core: u8) -> Foretold
        requires { core < length self.now.views }
        ensures touches { touched_told (view_at self.now core).writes result.touched
            ≡ (stepped_pending None (machine_setting self.now) self.now.memory (pending_at self.now core)
            (view_at self.now core)).touched }
        ensures within { AreWithin (length self.now.memory) result.touched }
        ensures written { result.touched ≡ Touches.WriteSet →
            AreLines (view_at self.now core).writes (length self.now.memory) }
        ensures reason { (state : State) (doomed : Doomed) → StandsFor self.now state doomed →
            result.reason
            ≡ abort_reason (machine_setting self.now) (seen_by state core) (state.cores core) (doomed core) }
        ensures reach { (state : State) (doomed : Doomed) → StandsFor self.now state doomed →
            IsReachTold (machine_setting self.now) (seen_by state core) (state.cores core) (doomed core) result.reach }
    {
        self.unbuffered
            .foretold(core, self.pending_of(core), self.most)
    }

    /// What the next step of `core` comes to, if it makes it now, under no event, on memory as the core sees it. Where
    /// the step waits, so that the core's oldest store reaches memory in its place, the bytes told are those of the
    /// instruction that waits, and [`Machine::hit_by`] tells whom that store hits. `NoSuchCore` (42). Takes no memory;
    /// its work is that of planning the instruction once, and twice where stores may be pending.
    pub fn preview(&self, core: u8) -> Result<Preview, NoSuchCore>
        ensures exists { IsOk result ↔ (core < length self.now.views) }
        ensures own { IfOk result (λ preview. preview.core ≡ core) }
        ensures eip { IfOk result (λ preview. preview.eip ≡ (view_at self.now core).regs.eip) }
        ensures reason { IfOk result (λ preview. (state : State) (doomed : Doomed) → StandsFor self.now state doomed →
            preview.reason
            ≡ abort_reason (machine_setting self.now) (seen_by state core) (state.cores core) (doomed core)) }
        ensures reach { IfOk result (λ preview. (state : State) (doomed : Doomed) → StandsFor self.now state doomed →
            IsReachTold (machine_setting self.now) (seen_by state core) (state.cores core)
            (doomed core) preview.reach) }
        ensures made { IfOk result (λ preview. IsPreview self.now preview) }
    {
        let eip = self.regs(core)?.eip;
        let told = self.foretold(core);
        Ok(Preview {
            core,
            eip,
            reach: told.reach,
            reason: told.reason,
            touched: told.touched,
        })
    }

    /// The hit by which the previewed step condemns the transaction of `victim`, if it is made now, under no event: on
    /// the lowest line on which it does. None where the step does not condemn it, as where it is in no transaction, or
    /// condemned already, and where it is the core's own. `NoSuchCore` (42). Takes no memory; it looks into the sets
    /// alone, at the lines that the step touches.
    pub fn hit_by(&self, preview: &Preview, victim: u8) -> Result<Option<Hit>, NoSuchCore>
        requires { IsPreview self.now preview.now }
        ensures exists { IsOk result ↔ (victim < length self.now.views) }
        ensures own { victim ≡ preview.now.core → IfOk result (λ told. told ≡ None) }
        ensures told { (victim ≡ preview.now.core → ⊥) → IfOk result (λ told. (state : State) (doomed : Doomed) →
            StandsFor self.now state doomed →
            IsHitTold None (machine_setting self.now) state doomed preview.now.core victim told) }
    {
        if victim >= self.cores() {
            return Err(NoSuchCore);
        }
        Ok(
            self.unbuffered
                .hit_by(preview.core, preview.touched, victim),
        )
    }

    /// The hit by which the drain of the oldest store of `core` that is pending condemns the transaction of `victim`, if
    /// it reaches memory now: on the lowest line on which it does. None where it does not condemn it, where it is the
    /// core's own, and where nothing is pending: a step under a drain is then that of the preview. `NoSuchCore` (42)
    /// where one of the two is no core's number. Takes no memory.
    pub fn hit_by_drain(&self, core: u8, victim: u8) -> Result<Option<Hit>, NoSuchCore>
        ensures exists { IsOk result ↔ ((core < length self.now.views) × (victim < length self.now.views)) }
        ensures own { victim ≡ core → IfOk result (λ told. told ≡ None) }
        ensures none { pending_at self.now core ≡ [] → IfOk result (λ told. told ≡ None) }
        ensures told { (victim ≡ core → ⊥) → 0 < length (pending_at self.now core) → IfOk result (λ told.
            (state : State) (doomed : Doomed) → StandsFor self.now state doomed →
            IsHitTold (Some event.Drain) (machine_setting self.now) state doomed core victim told) }
    {
        if core >= self.cores() || victim >= self.cores() {
            return Err(NoSuchCore);
        }
        let pending = self.pending_of(core);
        if pending.is_empty() {
            return Ok(None);
        }
        let touched = Touches::Accesses(None, Some(store_at(pending, 0)));
        Ok(self.unbuffered.hit_by(core, touched, victim))
    }

    /// Whether the previewed step may hit another core at all: not where it touches no memory that others see, and not
    /// where no core is in an open transaction. Where it is false, [`Machine::hit_by`] tells no hit on any core.
    pub fn may_hit(&self, preview: &Preview) -> bool
        requires { IsPreview self.now preview.now }
        ensures { result ≡ false → (victim : ℕ) → victim < length self.now.views → (victim ≡ preview.now.core → ⊥) →
            (state : State) (doomed : Doomed) → StandsFor self.now state doomed →
            IsHitTold None (machine_setting self.now) state doomed preview.now.core victim None }
    {
        self.unbuffered.may_hit(preview.touched)
    }
}

impl<S: Sets> Unbuffered<S> {
    // What the next step of a core comes to, of which these stores are pending, at most so many.
    pub(crate) fn foretold(&self, core: u8, pending: &[Store], most: u8) -> Foretold
        requires exists { core < length self.now.views }
        requires storable { All (IsStorable (length self.now.memory)) pending.now }
        requires few { length pending.now ≤ most }
        ensures { IsForetold (setting_at self.now most) self.now.memory pending.now (view_at self.now core) result }
    {
        let code = Code {
            bytes: &self.code,
            base: self.base,
            rows: &self.rows,
        };
        let listing = Listing {
            code,
            lines: &self.lines,
        };
        foretell_pending(
            &listing,
            &self.memory,
            &self.cpus,
            &self.sets,
            core,
            pending,
            most,
        )
    }

    // The lowest hit on another core of a step of a core that touches this.
    pub(crate) fn hit_by(&self, core: u8, touched: Touches, victim: u8) -> Option<Hit>
        requires exists { core < length self.now.views }
        requires other { victim < length self.now.views }
        requires within { AreWithin (length self.now.memory) touched }
        requires written { touched ≡ Touches.WriteSet →
            AreLines (view_at self.now core).writes (length self.now.memory) }
        ensures own { victim ≡ core → result ≡ None }
        ensures told { (victim ≡ core → ⊥) →
            IsTold (touched_told (view_at self.now core).writes touched) (view_at self.now victim) result }
    {
        hit_touched(&self.cpus, &self.sets, core, touched, victim)
    }

    // Whether a step that touches this may hit another core at all.
    pub(crate) fn may_hit(&self, touched: Touches) -> bool
        ensures { result ≡ false → (writes : Lines) (victim : ℕ) → victim < length self.now.views →
            IsTold (touched_told writes touched) (view_at self.now victim) None }
    {
        if !self.busy {
            return false;
        }
        match touched {
            Touches::Nothing => false,
            Touches::Accesses(_, _) | Touches::WriteSet => true,
        }
    }
}
