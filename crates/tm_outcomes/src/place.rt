//! A machine at the end of a schedule, and what a search asks of it.
//!
//! [`Place::digest`] is asked first, and [`Place::is_alike`] where digests are the same, as it leaves out why a
//! core stopped and what a transaction has touched and stored. Memory is looked at on the lines alone that steps
//! store to (`written`). Schedules are made by `replay`, unseen steps by `rest`.

ghost use Rattle.std.specs.Prelude.{◌≡◌, ◌↔◌, ◌+◌, ◌*◌, ◌^◌, ◌<◌, ◌++◌, ◌∷◌, [], List, IfErr, IfOk, IsOk, IsTrue};
ghost use Rattle.std.specs.Prelude.{false, length, map, true};
ghost use Rattle.tm_core.specs.Reopening.{IsSameElsewhere};
ghost use Rattle.tm_core.specs.Theorem.{SameMachine, StandsFor, TakesStepUnder, machine_setting, pending_at};
ghost use Rattle.tm_core.specs.Theorem.{view_at};
ghost use Rattle.tm_model.specs.Conflicts.{Doomed};
ghost use Rattle.tm_model.specs.State.{State};
ghost use Rattle.tm_outcomes.specs.Outcomes.{AreThere, IsRefusal, IsThere, trial_setting, value_of};
ghost use Rattle.tm_model.specs.declared.outcome.Pick.{Pick};
ghost use Rattle.tm_outcomes.specs.Digests.{digest_by, mixed_buffers, mixed_core, mixed_cores, mixed_lines};
ghost use Rattle.tm_outcomes.specs.Digests.{mixed_pending, mixed_regs, mixed_rest};
ghost use Rattle.tm_outcomes.specs.Digests.{mode_number};
ghost use Rattle.tm_outcomes.specs.Places.{AreAlike, DrainsAsItSteps, GoesTo, IsAt, IsPlaceOf, are_pending};
ghost use Rattle.tm_outcomes.specs.Places.{has_stopped, is_open};
ghost use Rattle.tm_outcomes.specs.Schedules.{HasEnded, Situation};
ghost use Rattle.tm_condition.specs.Conditions.{Violates};
ghost use Rattle.tm_outcomes.specs.Verdicts.{StopsBy, seen_at};
ghost use Rattle.tm_outcomes.specs.Written.{IsPlaceIn};
ghost use Rattle.tm_outcomes.specs.declared.trial.Trial.{Trial};

use crate::digest::{Digest, are_same};
use crate::fault::SearchFault;
use crate::trial::{Item, Trial};
use crate::written::Written;
use bitflags::Flags as _;
use ia_regs::Regs;
use ia_word::Width;
use std::alloc::{AllocError, Global};
use tm_condition::Check;
use tm_core::{Buffering, Machine, MachineFault, NoSuchCore};
use tm_model::{CoreState, Outcome, Pick};
use tm_rule::Stop;
use tm_whole::memory::read;

/// A machine at the end of a schedule.
#[derive(Drop)]
pub struct Place {
    pub machine: Machine,
}

impl Place {
    /// Before the first step.
    pub fn opening(alloc: Global, trial: &Trial<'_>) -> Result<Place, SearchFault>
        ensures ok { IfOk result (λ place. IsAt trial.now place []) }
        ensures err { IfErr result (IsRefusal trial.now) }
    {
        match Machine::new(alloc, trial.program, trial.limits) {
            Ok(machine) => Ok(Place { machine }),
            Err(MachineFault::BadLimits) => Err(SearchFault::BadLimits),
            Err(MachineFault::NoMemory(_)) => Err(SearchFault::NoMemory),
        }
    }

    /// The next step of a pick's core, under its event.
    pub fn step(&mut self, trial: &Trial<'_>, pick: Pick)
        requires place { IsPlaceOf trial.now self.old }
        requires core { pick.core < length trial.now.program.now.entries }
        ensures goes { GoesTo (trial_setting trial.now) self.old self.new pick }
        ensures at { (schedule : List Pick) → IsAt trial.now self.old schedule →
            IsAt trial.now self.new (schedule ++ pick ∷ []) }
        ensures place { IsPlaceOf trial.now self.new }
    {
        let Ok(_outcome) = step_by(&mut self.machine, pick) else {
            unreachable!();
        };
    }
}

// The step of a pick.
fn step_by(machine: &mut Machine, pick: Pick) -> Result<Outcome, NoSuchCore>
    ensures exists { IsOk result ↔ (pick.core < length machine.old.views) }
    ensures same { SameMachine machine.old machine.new }
    ensures ok { IfOk result (λ outcome. (state : State) (doomed : Doomed) → StandsFor machine.old state doomed →
        TakesStepUnder pick.event machine.old machine.new state doomed pick.core outcome) }
{
    match pick.event {
        Some(event) => machine.step_under(pick.core, event),
        None => machine.step(pick.core),
    }
}

impl Place {
    /// Before the first step again.
    pub fn reopen(&mut self, trial: &Trial<'_>, written: &Written)
        requires { IsPlaceIn trial.now written.now self.old }
        ensures { IsAt trial.now self.new [] }
    {
        self.machine.reopen_lines(
            trial.program,
            written.opening.as_slice(),
            written.lines.as_slice(),
        );
    }
}

impl Place {
    /// Becomes as another place is, where both machines are of one size; else it stays, and the answer is false. Both
    /// have memory as it was before the first step but on the lines that were noted.
    pub fn copy(&mut self, other: &Place, written: &Written) -> bool
        requires same { SameMachine self.old.machine other.now.machine }
        requires memory { IsSameElsewhere written.now.lines.items self.old.machine.memory written.now.opening.items }
        requires others { IsSameElsewhere written.now.lines.items other.now.machine.memory written.now.opening.items }
        ensures at { IsTrue result → (trial : Trial) (schedule : List Pick) → IsAt trial other.now schedule →
            IsAt trial self.new schedule }
        ensures alike { IsTrue result → AreAlike self.new other.now }
        ensures stays { result ≡ false → self.new ≡ self.old }
        ensures place { (trial : Trial) → IsPlaceIn trial written.now self.old → IsPlaceIn trial written.now other.now →
            IsPlaceIn trial written.now self.new }
    {
        self.machine
            .copy_lines(&other.machine, written.lines.as_slice())
    }
}

impl Place {
    /// Whether another place goes on as this one does.
    pub fn is_alike(&self, other: &Place, written: &Written) -> bool
        requires memory { IsSameElsewhere written.now.lines.items self.now.machine.memory written.now.opening.items }
        requires others { IsSameElsewhere written.now.lines.items other.now.machine.memory written.now.opening.items }
        ensures { IsTrue result ↔ AreAlike self.now other.now }
    {
        if self.machine.cores() != other.machine.cores() {
            return false;
        }
        for core in 0..self.machine.cores() {
            if !self.machine.is_core_alike(&other.machine, core) {
                return false;
            }
            if !self.machine.is_pending_alike(&other.machine, core) {
                return false;
            }
        }
        are_same(
            self.machine.view(),
            other.machine.view(),
            written.opening.as_slice(),
            written.lines.as_slice(),
        )
    }
}

impl Place {
    /// Whether a store of a core is pending.
    pub fn has_pending(&self, core: u8) -> bool
        requires { core < length self.now.machine.views }
        ensures { result ≡ are_pending (pending_at self.now.machine core) }
    {
        match self.machine.pending(core) {
            Ok(stores) => !stores.is_empty(),
            Err(_) => unreachable!(),
        }
    }

    /// Whether a drain is another step of a core than its next one under no event: a store of it is pending, and its
    /// step does not wait.
    pub fn drains_apart(&self, core: u8) -> bool
        requires { core < length self.now.machine.views }
        ensures pending { result ≡ true → are_pending (pending_at self.now.machine core) ≡ true }
        ensures same { result ≡ false → (now : Situation) → StandsFor self.now.machine now.state now.doomed →
            DrainsAsItSteps (machine_setting self.now.machine) now core }
    {
        if !self.has_pending(core) {
            return false;
        }
        match self.machine.ahead(core) {
            Ok(Buffering::Waits(_wait)) => false,
            Ok(Buffering::Pends) => true,
            Ok(Buffering::Goes) => true,
            Err(_) => unreachable!(),
        }
    }

    /// Whether a core is in a transaction that is not doomed.
    pub fn is_open(&self, core: u8) -> bool
        requires { core < length self.now.machine.views }
        ensures { result ≡ is_open (view_at self.now.machine core).mode }
    {
        match self.machine.state(core) {
            Ok(state) => matches!(state, CoreState::Open(_)),
            Err(_) => unreachable!(),
        }
    }

    /// Whether a core has stopped.
    pub fn has_stopped(&self, core: u8) -> bool
        requires { core < length self.now.machine.views }
        ensures { result ≡ has_stopped (view_at self.now.machine core).mode }
    {
        match self.machine.state(core) {
            Ok(state) => matches!(state, CoreState::Stopped(_)),
            Err(_) => unreachable!(),
        }
    }

    /// Whether each core has stopped.
    pub fn has_ended(&self) -> bool
        ensures { (now : Situation) → StandsFor self.now.machine now.state now.doomed →
            (IsTrue result ↔ HasEnded now.state) }
    {
        for core in 0..self.machine.cores() {
            if !self.has_stopped(core) {
                return false;
            }
        }
        true
    }

    // Whether a core has stopped for this reason.
    fn has_stopped_by(&self, core: u8, why: Stop) -> bool
        requires { core < length self.now.machine.views }
        ensures { IsTrue result ↔ ((view_at self.now.machine core).mode ≡ CoreState.Stopped why) }
    {
        match self.machine.state(core) {
            Ok(state) => state == CoreState::Stopped(why),
            Err(_) => unreachable!(),
        }
    }

    /// Whether some core has stopped for this reason.
    pub fn stops_by(&self, why: Stop) -> bool
        ensures { (now : Situation) → StandsFor self.now.machine now.state now.doomed →
            (IsTrue result ↔ StopsBy now.state why) }
    {
        for core in 0..self.machine.cores() {
            if self.has_stopped_by(core, why) {
                return true;
            }
        }
        false
    }

    /// Whether it violates a check.
    pub fn violates(&self, check: &Check) -> bool
        ensures { (now : Situation) → StandsFor self.now.machine now.state now.doomed →
            (IsTrue result ↔ Violates (seen_at now.state) check.now) }
    {
        check.is_violated(&self.machine)
    }

    // The value of an item.
    fn value(&self, trial: &Trial<'_>, item: Item) -> u32
        requires is_there { IsThere trial.now item }
        requires at { (schedule : List Pick) × IsAt trial.now self.now schedule }
        ensures { (now : Situation) → StandsFor self.now.machine now.state now.doomed →
            result ≡ value_of now.state item }
    {
        match item {
            Item::Register(core, register) => match self.machine.base_regs(core) {
                Ok(regs) => regs.get(register),
                Err(_) => unreachable!(),
            },
            Item::Memory(address) => read(self.machine.view(), address, Width::D),
        }
    }

    /// The value of each item.
    pub fn values(&self, alloc: Global, trial: &Trial<'_>) -> Result<Vec<u32>, AllocError>
        requires are_there { AreThere trial.now }
        requires at { (schedule : List Pick) × IsAt trial.now self.now schedule }
        ensures { IfOk result (λ values. (now : Situation) → StandsFor self.now.machine now.state now.doomed →
            values.items ≡ map (value_of now.state) trial.now.items.now) }
    {
        let mut values = Vec::with_capacity(alloc, trial.items.len())?;
        for item in trial.items {
            values.push(self.value(trial, *item))?;
        }
        Ok(values)
    }

    /// A number that is the same for places of a trial that are alike: of each line that steps store to the bytes,
    /// where they are not what they were before the first step, and of each core what it does, its registers and its
    /// stores that are pending.
    pub fn digest(&self, written: &Written) -> u64
        ensures { result ≡ digest_by written.now self.now }
    {
        let mut digest = Digest::new();
        self.digest_lines(written, &mut digest);
        self.digest_cores(&mut digest);
        self.digest_buffers(&mut digest);
        digest.value()
    }

    // Adds the lines that steps store to.
    fn digest_lines(&self, written: &Written, digest: &mut Digest)
        ensures { digest.new.value ≡ mixed_lines self.now.machine.memory written.now.opening.items digest.old.value
            written.now.lines.items }
    {
        for line in written.lines.as_slice() {
            digest.add_line(self.machine.view(), written.opening.as_slice(), *line);
        }
    }

    // Adds what is shown of each core.
    fn digest_cores(&self, digest: &mut Digest)
        ensures { digest.new.value ≡ mixed_cores digest.old.value self.now.machine.views }
    {
        for core in 0..self.machine.cores() {
            self.digest_core(core, digest);
        }
    }

    // Adds the stores of each core that are pending.
    fn digest_buffers(&self, digest: &mut Digest)
        ensures { digest.new.value ≡ mixed_buffers (pending_at self.now.machine) digest.old.value
            (length self.now.machine.views) }
    {
        for core in 0..self.machine.cores() {
            self.digest_pending(core, digest);
        }
    }

    // Adds those of a core.
    fn digest_pending(&self, core: u8, digest: &mut Digest)
        requires { core < length self.now.machine.views }
        ensures { digest.new.value ≡ mixed_pending digest.old.value (pending_at self.now.machine core) }
    {
        let Ok(stores) = self.machine.pending(core) else {
            unreachable!();
        };
        for store in stores {
            digest.add(word_of_store(store.addr, store.value));
        }
    }

    // Adds what a core does and its registers, and between two steps the value that the first has loaded: in a
    // transaction the registers before it, and where it is not doomed those now.
    fn digest_core(&self, core: u8, digest: &mut Digest)
        requires { core < length self.now.machine.views }
        ensures { digest.new.value ≡ mixed_core digest.old.value (view_at self.now.machine core) }
    {
        let (Ok(state), Ok(base)) = (self.machine.state(core), self.machine.base_regs(core)) else {
            unreachable!();
        };
        digest.add(number_of(state));
        add_regs(digest, &base);
        self.digest_rest(core, state, digest);
    }

    // Adds what there is besides.
    fn digest_rest(&self, core: u8, state: CoreState, digest: &mut Digest)
        requires { core < length self.now.machine.views }
        ensures { digest.new.value ≡ mixed_rest digest.old.value (view_at self.now.machine core) state }
    {
        match state {
            CoreState::Mid => {
                let Ok(kept) = self.machine.kept(core) else {
                    unreachable!();
                };
                digest.add(u64::from(kept));
            }
            CoreState::Open(_) => {
                let Ok(regs) = self.machine.regs(core) else {
                    unreachable!();
                };
                add_regs(digest, &regs);
            }
            CoreState::Running | CoreState::Condemned(_) | CoreState::Stopped(_) => {}
        }
    }
}

// A number for what a core does.
fn number_of(state: CoreState) -> u64
    ensures { result ≡ mode_number state }
{
    match state {
        CoreState::Running => 0,
        CoreState::Mid => 1,
        CoreState::Open(depth) => 2 + u64::from(depth % 8),
        CoreState::Condemned(depth) => 10 + u64::from(depth % 8),
        CoreState::Stopped(_) => 18,
    }
}

// What is stored, and where.
fn word_of_store(addr: u32, value: u32) -> u64
    ensures { result ≡ value * 2 ^ 32 + addr }
{
    u64::from(value) * 0x1_0000_0000 + u64::from(addr)
}

// The instruction pointer and the flags.
fn word_of(regs: &Regs) -> u64
    ensures { result ≡ regs.now.eip * 2 ^ 32 + regs.now.flags.0 }
{
    u64::from(regs.eip) * 0x1_0000_0000 + u64::from(regs.flags.bits())
}

// Adds registers.
fn add_regs(digest: &mut Digest, regs: &Regs)
    ensures { digest.new.value ≡ mixed_regs digest.old.value regs.now }
{
    digest.add(word_of(regs));
    for register in regs.gpr {
        digest.add(u64::from(register));
    }
}
