//! A machine that makes the steps of a list, without a history, forth and back to before the first one.
//!
//! [`Walker::go_on`] makes the steps whatever comes of them. [`makes_all`] goes on only as long as each step comes
//! to be as its pick says, so that an event that aborted nothing ends it. Where to stand, and what is compared
//! there, is said by `chase` and `cycle`.

ghost use Rattle.std.specs.Prelude.{◌≡◌, ◌-◌, ◌∷◌, [], IfErr, IfOk, IsTrue, None, length};
ghost use Rattle.tm_core.specs.Theorem.{SameMachine, StandsFor};
ghost use Rattle.tm_model.specs.Runs.{event_told};
ghost use Rattle.tm_model.specs.State.{opening_state};
ghost use Rattle.tm_hunt.specs.Attempts.{IsBoardRefusal};
ghost use Rattle.tm_hunt.specs.Cycle.{IsMachineOf, Makes};
ghost use Rattle.tm_hunt.specs.Delays.{GoesUnheld};

use crate::trial::Trial;
use std::alloc::Global;
use tm_core::{Machine, MachineFault};
use tm_hist::{BoardFault, event_of};
use tm_model::{Event, Outcome, Pick};

/// A machine of a trial's program, before its first step.
pub fn machine_of(alloc: Global, trial: &Trial<'_>) -> Result<Machine, BoardFault>
    ensures ok { IfOk result (IsMachineOf trial.now) }
    ensures opening { IfOk result (λ machine. StandsFor machine (opening_state trial.now.program.now) (λ _. None)) }
    ensures err { IfErr result (IsBoardRefusal trial.now) }
{
    match Machine::new(alloc, trial.program, trial.limits) {
        Ok(machine) => Ok(machine),
        Err(MachineFault::BadLimits) => Err(BoardFault::BadLimits),
        Err(MachineFault::NoMemory(memory)) => Err(BoardFault::NoMachine(memory)),
    }
}

/// A machine on its way along the steps of a list.
#[derive(Drop)]
pub struct Walker<'a> {
    /// The machine.
    pub machine: Machine,
    /// The steps.
    pub picks: &'a [Pick],
    /// How many of them it has made.
    pub made: usize,
}

impl<'a> Walker<'a> {
    /// Before the first step of a list.
    pub fn new(
        alloc: Global,
        trial: &Trial<'_>,
        picks: &'a [Pick],
    ) -> Result<Walker<'a>, BoardFault>
        ensures ok { IfOk result (λ walker. IsMachineOf trial.now walker.machine) }
        ensures err { IfErr result (IsBoardRefusal trial.now) }
    {
        let machine = machine_of(alloc, trial)?;
        Ok(Walker {
            machine,
            picks,
            made: 0,
        })
    }

    /// How many steps of the list are left.
    pub fn left(&self) -> usize
        ensures { result ≡ length self.now.picks.now - self.now.made }
    {
        self.picks.len().saturating_sub(self.made)
    }

    /// Makes so many steps, fewer where the list ends.
    #[tactic(auto, using(crate::proofs::Cycles::sames))]
    pub fn go_on(&mut self, count: usize)
        ensures { SameMachine self.old.machine self.new.machine }
    {
        'steps: for _ in 0..count {
            let Some(pick) = self.picks.get(self.made) else {
                return;
            };
            let _as_told = makes(&mut self.machine, *pick);
            self.made += 1;
        }
    }

    /// Goes back to before the first step, and makes so many of them.
    #[tactic(auto, using(crate::proofs::Cycles::of_same))]
    pub fn go_from_start(&mut self, trial: &Trial<'_>, count: usize)
        requires { IsMachineOf trial.now self.old.machine }
        ensures { IsMachineOf trial.now self.new.machine }
    {
        self.machine.reopen(trial.program);
        self.made = 0;
        self.go_on(count);
    }
}

/// Makes a step, and answers whether it came to be as the pick says: under its event, where it has one.
pub fn makes(machine: &mut Machine, pick: Pick) -> bool
    ensures same { SameMachine machine.old machine.new }
    ensures made { IsTrue result → Makes machine.old machine.new (pick ∷ []) }
    ensures goes { IsTrue result → pick.event ≡ None → GoesUnheld machine.old pick.core }
{
    match pick.event {
        None => makes_alone(machine, pick),
        Some(event) => makes_under(machine, pick, event),
    }
}

// As [`makes`], of a step under no event.
fn makes_alone(machine: &mut Machine, pick: Pick) -> bool
    ensures same { SameMachine machine.old machine.new }
    ensures made { IsTrue result → Makes machine.old machine.new (pick ∷ []) }
    ensures goes { IsTrue result → pick.event ≡ None → GoesUnheld machine.old pick.core }
{
    match machine.step(pick.core) {
        Ok(outcome) => is_told(outcome, pick.event),
        Err(_) => false,
    }
}

// As [`makes`], of a step under this event.
fn makes_under(machine: &mut Machine, pick: Pick, event: Event) -> bool
    ensures same { SameMachine machine.old machine.new }
    ensures made { IsTrue result → Makes machine.old machine.new (pick ∷ []) }
{
    match machine.step_under(pick.core, event) {
        Ok(outcome) => is_told(outcome, pick.event),
        Err(_) => false,
    }
}

// Whether an outcome tells of this event, or of none.
fn is_told(outcome: Outcome, event: Option<Event>) -> bool
    ensures { IsTrue result → event_told outcome ≡ event }
{
    event_of(outcome) == event
}

/// Makes the steps of a list, as long as they come to be as it says. Answers whether all of them did.
#[tactic(auto, using(crate::proofs::Cycles::sames))]
pub fn makes_all(machine: &mut Machine, picks: &[Pick]) -> bool
    ensures same { SameMachine machine.old machine.new }
    ensures made { IsTrue result → Makes machine.old machine.new picks.now }
{
    for pick in picks {
        if !makes(machine, *pick) {
            return false;
        }
    }
    true
}
