//! A step of a core under an event that may befall it: [`Machine::step_under`], and [`Machine::take`] of a pick.
//!
//! A core in a transaction that is not condemned aborts, its next instruction unread; nobody else is hit by that. The
//! oldest store of a core that is pending reaches memory, whatever the core is at. Where an event befalls nothing, the
//! step is that of [`Machine::step`]. Which steps come under an event is not decided here, but by a schedule or by
//! `tm_pick`.

ghost use Rattle.std.specs.Prelude.{◌≡◌, ◌<◌, ◌≤◌, ◌++◌, ◌∷◌, ◌↔◌, ℕ, List, [], Option, Some, length, false};
ghost use Rattle.std.specs.Prelude.{IfNone, IfOk, IfSome, IsOk, OnErr};
ghost use Rattle.tm_model.specs.Conflicts.{Doomed};
ghost use Rattle.tm_model.specs.State.{Pending, State};
ghost use Rattle.tm_model.specs.declared.outcome.Event.TheVariants as event;
ghost use Rattle.tm_model.specs.declared.outcome.Outcome.{Outcome};
ghost use Rattle.tm_core.specs.Buffered.{MakesPending};
ghost use Rattle.tm_core.specs.Representation.{IsHeld, IsStepUnder, cpu_at, cpu_views, is_open, kept_at, parts_setting};
ghost use Rattle.tm_core.specs.Theorem.{IsRun, SameMachine, ShownMachine, StandsFor, TakesStepUnder, view_at};

use crate::cpu::Cpu;
use crate::fault::NoSuchCore;
use crate::machine::Machine;
use crate::transaction::abort;
use crate::unbuffered::{Unbuffered, any_open};
use tm_model::{CoreState, Event, Interference, Outcome, Pick};
use tm_rule::Code;
use tm_sets::{Kind, Sets};
use tm_status::status;

// The abort of core c, which is in a transaction of this depth, from outside of the program: what it does to what each
// core shows.
#[inline(never)]
fn abort_by<S: Sets>(
    code: &Code,
    cpus: &mut [Cpu],
    sets: &mut S,
    c: u8,
    by: Interference,
    depth: u8,
) -> Outcome
    requires open { (cpu_at cpus.old c).state ≡ CoreState.Open depth }
    requires cores { length cpus.old ≤ (S.content sets.old).fixed.cores }
    requires exists { c < length cpus.old }
    requires held { (j : ℕ) → j < length cpus.old → IsHeld ((S.content sets.old).fixed.room Kind.Write)
        (kept_at (S.content sets.old) cpus.old j) }
    ensures step { (memory : List ℕ) → IsStepUnder (Some (event.Abort by))
        (parts_setting code.now.bytes.now code.now.base (length memory) (S.content sets.old)) memory
        (cpu_views (S.content sets.old) cpus.old) (length cpus.old) c result memory
        (cpu_views (S.content sets.new) cpus.new) }
    ensures held { (j : ℕ) → j < length cpus.old → IsHeld ((S.content sets.old).fixed.room Kind.Write)
        (kept_at (S.content sets.new) cpus.new j) }
    ensures fixed { (S.content sets.new).fixed ≡ (S.content sets.old).fixed }
{
    let cause = by.cause();
    let _outcome = abort(code, &mut cpus[c as usize], sets, c, cause, depth);
    Outcome::AbortedBy(by, status(cause, depth > 1))
}

impl<S: Sets> Machine<S> {
    /// One step of a core under an event. Where the core is in a transaction that is not condemned, `Event::Abort`
    /// aborts it, whatever its next instruction is (SDM volume 1, 16.3.8); where a store of the core is pending,
    /// `Event::Drain` writes the oldest to memory. Anywhere else nothing is befallen, and the step is that of
    /// [`Machine::step`]. `NoSuchCore` (42) where there is none of this number. Takes no memory.
    pub fn step_under(&mut self, core: u8, event: Event) -> Result<Outcome, NoSuchCore>
        ensures exists { IsOk result ↔ (core < length self.old.views) }
        ensures same { SameMachine self.old self.new }
        ensures ok { IfOk result (λ outcome. (state : State) (doomed : Doomed) → StandsFor self.old state doomed →
            TakesStepUnder (Some event) self.old self.new state doomed core outcome) }
        ensures run { IfOk result (λ outcome. (start : ShownMachine) (state : State) (doomed : Doomed)
            (earlier : List (ℕ × Outcome)) → IsRun start self.old state doomed earlier →
            IsRun start self.new state doomed (earlier ++ (core, outcome) ∷ [])) }
        ensures err { OnErr result (self.new ≡ self.old) }
    {
        match event {
            Event::Drain => self.drain(core),
            Event::Abort(by) => self.interfere(core, by),
        }
    }

    /// One step as a schedule picks it: that of a core, under an event ([`Machine::step_under`]) or under none
    /// ([`Machine::step`]). `NoSuchCore` (42). Takes no memory.
    pub fn take(&mut self, pick: Pick) -> Result<Outcome, NoSuchCore>
        ensures exists { IsOk result ↔ (pick.core < length self.old.views) }
        ensures same { SameMachine self.old self.new }
        ensures ok { IfOk result (λ outcome. (state : State) (doomed : Doomed) → StandsFor self.old state doomed →
            TakesStepUnder pick.event self.old self.new state doomed pick.core outcome) }
        ensures run { IfOk result (λ outcome. (start : ShownMachine) (state : State) (doomed : Doomed)
            (earlier : List (ℕ × Outcome)) → IsRun start self.old state doomed earlier →
            IsRun start self.new state doomed (earlier ++ (pick.core, outcome) ∷ [])) }
        ensures err { OnErr result (self.new ≡ self.old) }
    {
        match pick.event {
            None => self.step(pick.core),
            Some(event) => self.step_under(pick.core, event),
        }
    }

    // The drain of a core's oldest store, or one step of a core where none is pending.
    fn drain(&mut self, core: u8) -> Result<Outcome, NoSuchCore>
        ensures exists { IsOk result ↔ (core < length self.old.views) }
        ensures same { SameMachine self.old self.new }
        ensures ok { IfOk result (λ outcome. (state : State) (doomed : Doomed) → StandsFor self.old state doomed →
            TakesStepUnder (Some event.Drain) self.old self.new state doomed core outcome) }
        ensures run { IfOk result (λ outcome. (start : ShownMachine) (state : State) (doomed : Doomed)
            (earlier : List (ℕ × Outcome)) → IsRun start self.old state doomed earlier →
            IsRun start self.new state doomed (earlier ++ (core, outcome) ∷ [])) }
        ensures err { OnErr result (self.new ≡ self.old) }
    {
        if core >= self.cores() {
            return Err(NoSuchCore);
        }
        if self.has_pending(core) {
            self.drain_pending(core);
            return Ok(Outcome::Drained);
        }
        self.step(core)
    }

    // One step of a core, or the abort of its transaction where it is in one that is not condemned.
    fn interfere(&mut self, core: u8, by: Interference) -> Result<Outcome, NoSuchCore>
        ensures exists { IsOk result ↔ (core < length self.old.views) }
        ensures same { SameMachine self.old self.new }
        ensures ok { IfOk result (λ outcome. (state : State) (doomed : Doomed) → StandsFor self.old state doomed →
            TakesStepUnder (Some (event.Abort by)) self.old self.new state doomed core outcome) }
        ensures run { IfOk result (λ outcome. (start : ShownMachine) (state : State) (doomed : Doomed)
            (earlier : List (ℕ × Outcome)) → IsRun start self.old state doomed earlier →
            IsRun start self.new state doomed (earlier ++ (core, outcome) ∷ [])) }
        ensures err { OnErr result (self.new ≡ self.old) }
    {
        match self.open_depth(core)? {
            Some(depth) => Ok(self.abort_under(core, by, depth)),
            None => self.step(core),
        }
    }

    // The depth of a core's transaction, where it is in one that is not condemned.
    fn open_depth(&self, core: u8) -> Result<Option<u8>, NoSuchCore>
        ensures exists { IsOk result ↔ (core < length self.now.views) }
        ensures some { IfOk result (λ found. IfSome found (λ depth. (view_at self.now core).mode
            ≡ CoreState.Open depth)) }
        ensures none { IfOk result (λ found. IfNone found (is_open (view_at self.now core).mode ≡ false)) }
    {
        match self.state(core)? {
            CoreState::Open(depth) => Ok(Some(depth)),
            CoreState::Running => Ok(None),
            CoreState::Mid => Ok(None),
            CoreState::Condemned(_depth) => Ok(None),
            CoreState::Stopped(_stop) => Ok(None),
        }
    }

    // The abort of a core in a transaction of this depth, from outside of the program.
    fn abort_under(&mut self, core: u8, by: Interference, depth: u8) -> Outcome
        requires core { core < length self.old.views }
        requires open { (view_at self.old core).mode ≡ CoreState.Open depth }
        ensures same { SameMachine self.old self.new }
        ensures ok { (state : State) (doomed : Doomed) → StandsFor self.old state doomed →
            TakesStepUnder (Some (event.Abort by)) self.old self.new state doomed core result }
    {
        let outcome = self.unbuffered.abort_under(core, by, depth);
        self.unbuffered.nothing_pending();
        outcome
    }
}

impl<S: Sets> Unbuffered<S> {
    // The abort of a core in a transaction of this depth, from outside of the program.
    fn abort_under(&mut self, core: u8, by: Interference, depth: u8) -> Outcome
        requires core { core < length self.old.views }
        requires open { (view_at self.old core).mode ≡ CoreState.Open depth }
        ensures { (most : ℕ) (pending : Pending) → MakesPending (Some (event.Abort by)) most self.old self.new
            pending pending core result }
    {
        let code = Code {
            bytes: &self.code,
            base: self.base,
            rows: &self.rows,
        };
        let outcome = abort_by(&code, &mut self.cpus, &mut self.sets, core, by, depth);
        self.busy = any_open(&self.cpus);
        outcome
    }
}
