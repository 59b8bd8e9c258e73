//! The loop that a run which never ends comes to: [`find_cycle`].
//!
//! The steps behind those that decide are taken as rounds (`rounds`), a loop of whole rounds is looked for among
//! them (`chase`), and what is found is made from before the first step on: to the loop, and once around. Where all
//! steps decide there are no rounds and no machine is made. That none is found does not say that there is none.

ghost use Rattle.std.specs.Prelude.{◌≡◌, ◌<◌, ◌≤◌, IfErr, IfOk, IfSome, IsTrue, length};
ghost use Rattle.tm_core.specs.Theorem.{SameMachine};
ghost use Rattle.tm_hunt.specs.Attempts.{IsRefusal};
ghost use Rattle.tm_hunt.specs.Chase.{IsChaseOf};
ghost use Rattle.tm_hunt.specs.Cycle.{AreAlike, AreRounds, CameBy, GoesRound, IsCycle, IsMachineOf, Makes, loop_of};

use crate::alike::are_alike;
use crate::attempt::HuntFault;
use crate::chase::Chase;
use crate::failure::Failure;
use crate::rounds::{are_rounds, round_at_end};
use crate::trial::Trial;
use crate::walker::{Walker, makes_all};
use std::alloc::Global;
use tm_core::Machine;
use tm_model::Pick;

/// Where a run goes round for ever.
#[derive(Clone, Copy, PartialEq, Eq, Debug)]
pub struct Cycle {
    /// How many steps lead to the loop.
    pub start: usize,
    /// How many steps the loop has: whole rounds, in each of which each core that has not stopped steps once.
    pub steps: usize,
}

impl Cycle {
    /// The steps of the loop, of those of its run.
    pub fn steps_of(self, picks: &[Pick]) -> &[Pick]
        ensures { result.now ≡ loop_of picks.now self }
    {
        let (_before, behind) = picks.split_at(self.start.min(picks.len()));
        let (steps, _rest) = behind.split_at(self.steps.min(behind.len()));
        steps
    }
}

/// Looks for the loop of a failing run that reached the limit on steps, behind the steps that decide: there the cores
/// go on in turn, and where that comes back, after whole rounds, to what is shown alike, it does so for ever. It is
/// sought up to the limit, on two machines of which one goes twice as fast, and what is found is made once more before
/// it is told. Of a run of which none is told nothing is said.
pub fn find_cycle(
    alloc: Global,
    trial: &Trial<'_>,
    failure: &Failure,
) -> Result<Option<Cycle>, HuntFault>
    ensures ok { IfOk result (λ found. IfSome found (IsCycle trial.now failure.now)) }
    ensures err { IfErr result (IsRefusal trial.now) }
{
    let picks = failure.picks.as_slice();
    let (_front, behind) = picks.split_at(failure.front);
    let Some(round) = round_at_end(behind) else {
        return Ok(None);
    };
    let slow = Walker::new(alloc, trial, picks)?;
    let fast = Walker::new(alloc, trial, picks)?;
    let chase = Chase {
        slow,
        fast,
        differs_at: 0,
    };
    Ok(cycle_of(trial, chase, picks, failure.front, round))
}

// The loop that two machines find behind so many steps, where it is one.
fn cycle_of(
    trial: &Trial<'_>,
    mut chase: Chase<'_>,
    picks: &[Pick],
    front: usize,
    round: usize,
) -> Option<Cycle>
    requires { IsChaseOf trial.now chase }
    ensures front { IfSome result (λ cycle. front ≤ cycle.start) }
    ensures round { IfSome result (GoesRound trial.now picks.now) }
{
    let cycle = chase.cycle(trial, front, round)?;
    // That the machines met proves nothing: what is told was made.
    if cycle.start >= front && cycle.is_made(trial, &mut chase, picks, round) {
        Some(cycle)
    } else {
        None
    }
}

impl Cycle {
    // Makes it on the fast machine: whether the steps before it lead to what the slow one shows, and its own steps,
    // rounds of so many, back to that.
    fn is_made(self, trial: &Trial<'_>, chase: &mut Chase<'_>, picks: &[Pick], round: usize) -> bool
        requires { IsChaseOf trial.now chase.old }
        ensures { IsTrue result → GoesRound trial.now picks.now self }
    {
        if self.steps == 0 || self.start > picks.len() || self.steps > picks.len() - self.start {
            return false;
        }
        let (before, behind) = picks.split_at(self.start);
        let (steps, _rest) = behind.split_at(self.steps);
        let shown = &chase.slow.machine;
        let machine = &mut chase.fast.machine;
        if !leads_there(trial, shown, machine, before) {
            return false;
        }
        leads_back(shown, machine, steps, round)
    }
}

// Whether these steps lead a machine from before its first step to what another one shows.
fn leads_there(trial: &Trial<'_>, shown: &Machine, machine: &mut Machine, before: &[Pick]) -> bool
    requires { IsMachineOf trial.now machine.old }
    ensures came { IsTrue result → CameBy trial.now machine.new before.now }
    ensures alike { IsTrue result → AreAlike shown.now machine.new }
{
    machine.reopen(trial.program);
    makes_all(machine, before) && are_alike(shown, machine)
}

// Whether these steps are rounds of so many, and lead a machine to what another one shows.
fn leads_back(shown: &Machine, machine: &mut Machine, steps: &[Pick], round: usize) -> bool
    ensures rounds { IsTrue result → AreRounds machine.old steps.now }
    ensures made { IsTrue result → Makes machine.old machine.new steps.now }
    ensures same { SameMachine machine.old machine.new }
    ensures alike { IsTrue result → AreAlike shown.now machine.new }
{
    if !are_rounds(machine, steps, round) {
        return false;
    }
    makes_all(machine, steps) && are_alike(shown, machine)
}
