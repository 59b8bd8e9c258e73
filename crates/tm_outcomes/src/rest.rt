//! Steps that no other core sees.
//!
//! Such a step touches no memory, conflicts with none, and is the same whatever the other cores do before it: in
//! whichever order it and their steps are made, the same states follow. Where stores of its core are pending it does
//! not wait for them, and is the same before a drain of the oldest and behind it; a store of its own is then pending,
//! the last of all. So a search makes these steps at once, and follows the others (`specs/Unseen.antt`).

ghost use Rattle.std.specs.Prelude.{◌≡◌, ◌<◌, ℕ, IfOk, length, true};
ghost use Rattle.tm_core.specs.Theorem.{StandsFor, pending_at, view_at};
ghost use Rattle.tm_model.specs.Access.{loaded_addresses};
ghost use Rattle.tm_model.specs.Explained.{addresses_stored_at};
ghost use Rattle.tm_model.specs.Owed.{owed_outcome};
ghost use Rattle.tm_model.specs.Setting.{program_setting};
ghost use Rattle.tm_model.specs.State.{Closed, seen_by};
ghost use Rattle.tm_model.specs.declared.outcome.Pick.{Pick};
ghost use Rattle.tm_outcomes.specs.Nodes.{IsPickOf};
ghost use Rattle.tm_outcomes.specs.Outcomes.{trial_setting, usual_event};
ghost use Rattle.tm_outcomes.specs.Places.{IsPlaceOf};
ghost use Rattle.tm_outcomes.specs.Resting.{Advances, RestsBy, is_condemned, is_running};
ghost use Rattle.tm_outcomes.specs.Schedules.{Situation};
ghost use Rattle.tm_outcomes.specs.Unseen.{IsUnseen, are_none, drains, is_unseen, touches_nothing};

use crate::place::Place;
use crate::trial::{Events, Trial};
use ia_addr::Access;
use ia_image::Program;
use ia_regs::Regs;
use std::alloc::{AllocError, Global};
use tm_core::Buffering;
use tm_model::{CoreState, Event, Pick};
use tm_rule::{Code, fetch, load_at, row};

/// The most steps that are made at once: one that is followed, and behind it at most 4096 that no other core sees,
/// since a core may never see memory again.
const MOST_STEPS: usize = 4097;

fn is_running(state: CoreState) -> bool
    ensures { result ≡ is_running state }
{
    matches!(state, CoreState::Running)
}

fn is_condemned(state: CoreState) -> bool
    ensures { result ≡ is_condemned state }
{
    matches!(state, CoreState::Condemned(_))
}

// Whether the instruction at these registers loads nothing.
fn loads_nothing(program: &Program, regs: &Regs) -> bool
    ensures { (reads writes stores : ℕ) →
        result ≡ are_none ((program_setting program.now reads writes stores).load_of regs.now) }
{
    let code = Code {
        bytes: program.code(),
        base: program.base(),
        rows: program.rows(),
    };
    let size = program.mem_size();
    match row(&code, regs.eip) {
        Some(row) => is_absent(load_at(row, regs, size)),
        None => is_absent(load_at(&fetch(&code, regs.eip), regs, size)),
    }
}

// Whether there is no access.
fn is_absent(access: Option<Access>) -> bool
    ensures { result ≡ are_none (loaded_addresses access) }
{
    match access {
        Some(_) => false,
        None => true,
    }
}

impl Trial<'_> {
    /// What a step comes under that no event has to abort: none, but where each step comes under one.
    pub fn usual_event(&self) -> Option<Event>
        ensures { result ≡ usual_event self.now.events }
    {
        match self.events {
            Events::Never => None,
            Events::May(_) => None,
            Events::Always(event) => Some(event),
        }
    }
}

impl Place {
    // Whether the instruction of the next step of a core, outside of transactions, stores nothing.
    fn stores_nothing(&self, trial: &Trial<'_>, core: u8) -> bool
        requires place { IsPlaceOf trial.now self.now }
        requires core { core < length trial.now.program.now.entries }
        requires running { is_running (view_at self.now.machine core).mode ≡ true }
        ensures { (now : Situation) → StandsFor self.now.machine now.state now.doomed →
            result ≡ are_none (addresses_stored_at (trial_setting trial.now) (seen_by now.state core)
            (Closed (view_at self.now.machine core).base)
            (owed_outcome (trial_setting trial.now) (seen_by now.state core)
            (Closed (view_at self.now.machine core).base) None)) }
    {
        let Ok(preview) = self.machine.preview(core) else {
            unreachable!();
        };
        is_absent(preview.reach.store)
    }

    // Whether the next step of a core outside of transactions touches no memory, and does not wait.
    fn touches_nothing(&self, trial: &Trial<'_>, core: u8) -> bool
        requires place { IsPlaceOf trial.now self.now }
        requires core { core < length trial.now.program.now.entries }
        requires running { is_running (view_at self.now.machine core).mode ≡ true }
        ensures { (now : Situation) → StandsFor self.now.machine now.state now.doomed →
            result ≡ touches_nothing (trial_setting trial.now) now.state.memory (now.state.pending core)
            (view_at self.now.machine core).base }
    {
        let Ok(regs) = self.machine.base_regs(core) else {
            unreachable!();
        };
        if !loads_nothing(trial.program, &regs) {
            return false;
        }
        let Ok(buffering) = self.machine.ahead(core) else {
            unreachable!();
        };
        match buffering {
            Buffering::Waits(_wait) => false,
            Buffering::Pends => true,
            Buffering::Goes => self.stores_nothing(trial, core),
        }
    }

    // Whether no other core sees the next step of a core, and none changes it, and neither does a drain.
    fn is_unseen(&self, trial: &Trial<'_>, core: u8) -> bool
        requires place { IsPlaceOf trial.now self.now }
        requires core { core < length trial.now.program.now.entries }
        ensures { (now : Situation) → StandsFor self.now.machine now.state now.doomed →
            result ≡ is_unseen (trial_setting trial.now) now.state.memory (now.state.pending core)
            (now.state.cores core) (now.doomed core) }
    {
        let Ok(state) = self.machine.state(core) else {
            unreachable!();
        };
        if is_condemned(state) {
            return true;
        }
        if !is_running(state) {
            return false;
        }
        self.touches_nothing(trial, core)
    }

    // Whether the step of a pick is a drain, whatever its core is at.
    fn drains(&self, pick: Pick) -> bool
        requires { pick.core < length self.now.machine.views }
        ensures { result ≡ drains pick.event (pending_at self.now.machine pick.core) }
    {
        match pick.event {
            Some(Event::Drain) => self.has_pending(pick.core),
            Some(Event::Abort(_by)) => false,
            None => false,
        }
    }

    // Whether the step of a pick is no drain and no other core sees it, and none changes it, nor does a drain.
    fn is_quiet(&self, trial: &Trial<'_>, pick: Pick) -> bool
        requires place { IsPlaceOf trial.now self.now }
        requires core { pick.core < length trial.now.program.now.entries }
        ensures { result ≡ true → (now : Situation) → StandsFor self.now.machine now.state now.doomed →
            IsUnseen (trial_setting trial.now) now pick }
    {
        !self.drains(pick) && self.is_unseen(trial, pick.core)
    }

    // Whether a core is where it was at the mark, so that it goes round in a loop that touches no memory. The mark
    // moves with each doubling of the steps, so that it comes to lie in such a loop.
    fn has_come_back(&self, core: u8, count: usize, mark: &mut Option<Regs>) -> bool {
        let Ok(regs) = self.machine.base_regs(core) else {
            return false;
        };
        if let Some(marked) = *mark {
            if marked == regs {
                return true;
            }
            if !count.is_power_of_two() {
                return false;
            }
        }
        *mark = Some(regs);
        false
    }

    // Makes the unseen steps of a core, and adds them to these: until there is none, the core goes round, or there
    // are as many as are made at once.
    fn rest_core(
        &mut self,
        trial: &Trial<'_>,
        core: u8,
        steps: &mut Vec<Pick>,
    ) -> Result<(), AllocError>
        requires core { core < length trial.now.program.now.entries }
        requires place { IsPlaceOf trial.now self.old }
        ensures place { IfOk result (λ _. IsPlaceOf trial.now self.new) }
        ensures rests { IfOk result (λ _. RestsBy trial.now self.old self.new steps.old.items steps.new.items) }
    {
        let pick = Pick {
            core,
            event: trial.usual_event(),
        };
        let mut mark: Option<Regs> = None;
        'steps: while steps.as_slice().len() < MOST_STEPS {
            if self.has_come_back(core, steps.as_slice().len(), &mut mark) {
                return Ok(());
            }
            if !self.is_quiet(trial, pick) {
                return Ok(());
            }
            steps.push(pick)?;
            self.step(trial, pick);
        }
        Ok(())
    }

    // Makes the unseen steps of each core, and adds them to these.
    fn come_to_rest(&mut self, trial: &Trial<'_>, steps: &mut Vec<Pick>) -> Result<(), AllocError>
        requires place { IsPlaceOf trial.now self.old }
        ensures place { IfOk result (λ _. IsPlaceOf trial.now self.new) }
        ensures rests { IfOk result (λ _. RestsBy trial.now self.old self.new steps.old.items steps.new.items) }
    {
        for core in 0..trial.program.cores() {
            self.rest_core(trial, core, steps)?;
        }
        Ok(())
    }

    /// The step of a pick, and behind it steps that no other core sees, core by core, until no core's next step is
    /// such a one, or there are as many as are made at once. Answers the steps that were made.
    pub fn advance(
        &mut self,
        alloc: Global,
        trial: &Trial<'_>,
        pick: Pick,
    ) -> Result<Vec<Pick>, AllocError>
        requires pick { IsPickOf trial.now pick }
        requires place { IsPlaceOf trial.now self.old }
        ensures { IfOk result (λ steps. Advances trial.now self.old self.new pick steps.items) }
    {
        let mut steps = Vec::new(alloc);
        steps.push(pick)?;
        self.step(trial, pick);
        self.come_to_rest(trial, &mut steps)?;
        Ok(steps)
    }
}
