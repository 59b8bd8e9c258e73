//! A shorter schedule that fails by the same check: [`shorten`].
//!
//! In this order the end is cut off, then events, bursts and steps; bursts are put side by side, and steps cut once
//! more; and where stores may be pending each drain that is left comes as early as it may (`early`): what is late
//! then has to be. Each is done by at most 4096 tries. A try (`cuts`) is the run of a front with what comes behind it,
//! so that whatever is kept was made and fails. A run at the limit keeps its rounds: their loop is looked for by
//! `cycle`.

ghost use Rattle.std.specs.Prelude.{◌≡◌, ◌≤◌, IfErr, IfOk, IfSome};
ghost use Rattle.tm_hunt.specs.Attempts.{IsFailure, IsRefusal};
ghost use Rattle.tm_hunt.specs.Deciding.{cost_told};
ghost use Rattle.tm_hunt.specs.Hunt.{IsTrialOf};
ghost use Rattle.tm_hunt.specs.Cycle.{IsMachineOf};
ghost use Rattle.tm_hunt.specs.Kept.{ComesOf, KeepsKinds};
ghost use Rattle.tm_hunt.specs.Shortening.{CanShorten, Shortens, Simplifies};
ghost use Rattle.tm_pick.specs.Kinds.{AreAmong, AreOfKinds};
ghost use Rattle.tm_pick.specs.declared.kinds.Kinds.{Kinds};

use crate::attempt::{Attempt, HuntFault, try_run};
use crate::cost::cost;
use crate::cuts::{
    burst_end, front_of, has_no_new_drain, joined, last_event, moved_before, next_drain, without,
    without_event,
};
use crate::early::early_place;
use crate::failure::Failure;
use crate::one_run::board_of;
use crate::trial::Trial;
use crate::walker::machine_of;
use std::alloc::Global;
use tm_core::Machine;
use tm_hist::Board;
use tm_model::Pick;
use tm_pick::Picker;

/// The most tries of each of the ways to make a schedule shorter.
const MOST_TRIES: u32 = 4096;

/// The front of a schedule that is made shorter, and the board on which each try is made.
#[derive(Drop)]
pub struct Front {
    /// The steps that are picked; behind them the run goes to its end, or to the limit.
    pub steps: Vec<Pick>,
    /// The trial's board.
    pub board: Board,
}

/// Makes a failing schedule shorter, which fails then by the same check: its shortest front, with which the run fails
/// where the cores then run to their ends one after another; then the front without some of its events; then without
/// some of its bursts and some of its steps (delta debugging, after Zeller and Hildebrandt, IEEE TSE 2002); then with
/// bursts of one core side by side; and where stores may be pending with each drain as early as it may come. Each is
/// tried, and kept where it fails and is no less simple: in steps, four times the switches and four times the events.
/// No event is there of a kind that was not: where no step is a drain, a try of which one is, since it waits, is not
/// kept. Of a run that reached the limit on steps the front is what is made simpler: behind it each core steps in turn,
/// up to the limit.
///
/// Where memory is refused, the schedule is the shortest that was found till then.
#[tactic(auto, using(crate::proofs::Shortenings::simplifying))]
pub fn shorten(alloc: Global, trial: &Trial<'_>, best: &mut Failure) -> Result<(), HuntFault>
    requires { IsFailure trial.now best.old }
    ensures fails { IsFailure trial.now best.new }
    ensures same { best.new.check ≡ best.old.check }
    ensures simpler { cost_told best.new ≤ cost_told best.old }
    ensures kinds { KeepsKinds best.old.picks.items best.new.picks.items }
    ensures err { IfErr result (IsRefusal trial.now) }
{
    cut_front(alloc, trial, best)?;
    if trial.limits.stores == 0 {
        return Ok(());
    }
    hasten_drains(alloc, trial, best)
}

// Cuts steps and events, and puts bursts side by side.
#[tactic(auto, using(crate::proofs::Shortenings::simplifying))]
fn cut_front(alloc: Global, trial: &Trial<'_>, best: &mut Failure) -> Result<(), HuntFault>
    requires { IsFailure trial.now best.old }
    ensures simpler { Simplifies trial.now best.old best.new }
    ensures err { IfErr result (IsRefusal trial.now) }
{
    let steps = Vec::from_slice(alloc, best.picks.as_slice())?;
    let board = board_of(alloc, trial)?;
    let mut front = Front { steps, board };
    front.shorten(alloc, trial, best)
}

// Lets each drain come as early as it may.
#[tactic(auto, using(crate::proofs::Shortenings::simplifying))]
fn hasten_drains(alloc: Global, trial: &Trial<'_>, best: &mut Failure) -> Result<(), HuntFault>
    requires { IsFailure trial.now best.old }
    ensures simpler { Simplifies trial.now best.old best.new }
    ensures err { IfErr result (IsRefusal trial.now) }
{
    let mut machine = machine_of(alloc, trial)?;
    let board = board_of(alloc, trial)?;
    let steps = Vec::new(alloc);
    let mut front = Front { steps, board };
    front.hasten(alloc, trial, &mut machine, best)
}

impl Front {
    // Makes the front of a schedule shorter.
    #[tactic(auto, using(crate::proofs::Shortenings::shortenings))]
    fn shorten(
        &mut self,
        alloc: Global,
        trial: &Trial<'_>,
        best: &mut Failure,
    ) -> Result<(), HuntFault>
        requires { CanShorten trial.now self.old best.old }
        ensures shorter { Shortens trial.now self.old best.old self.new best.new }
        ensures err { IfErr result (IsRefusal trial.now) }
    {
        self.cut_behind(alloc, trial, best)?;
        self.cut_events(alloc, trial, best)?;
        self.cut_bursts(alloc, trial, best)?;
        self.cut_steps(alloc, trial, best)?;
        self.join_bursts(alloc, trial, best)?;
        // Once more: where bursts were joined, steps may go that had to stay before.
        self.cut_steps(alloc, trial, best)
    }
}

// What makes the run of a front, where that of the failure to be made shorter has so many steps: where it reached the
// limit each core steps in turn behind the front, and else one after another goes to its end.
fn picker_of<'a>(trial: &Trial<'_>, front: &'a [Pick], length: usize) -> Picker<'a>
    ensures { (kinds : Kinds) → AreOfKinds kinds front.now → AreAmong result.kinds kinds }
{
    match u32::try_from(length) {
        Ok(length) if length < trial.most => Picker::front(front, length),
        _ => Picker::front_in_turn(front),
    }
}

// What the run of a front comes to, where it fails, behind a failure whose run has so many steps.
#[tactic(auto, using(crate::proofs::Ending::failure_of))]
fn failure_of(
    alloc: Global,
    trial: &Trial<'_>,
    board: &mut Board,
    front: &[Pick],
    length: usize,
) -> Result<Option<Failure>, HuntFault>
    requires of_trial { IsTrialOf trial.now board.old }
    ensures fails { IfOk result (λ found. IfSome found (IsFailure trial.now)) }
    ensures kinds { IfOk result (λ found. IfSome found (λ failure.
        ComesOf trial.now.limits.stores front.now failure.picks.items)) }
    ensures of_trial { IsTrialOf trial.now board.new }
    ensures err { IfErr result (IsRefusal trial.now) }
{
    let mut picker = picker_of(trial, front, length);
    match try_run(alloc, trial, board, &mut picker)? {
        Attempt::Failed(failure) => Ok(Some(decide(trial, failure, picker.made_of_list()))),
        Attempt::Ended | Attempt::Cut => Ok(None),
    }
}

// A failure of which so many first steps decide, where its run reached the limit, and else all.
fn decide(trial: &Trial<'_>, failure: Failure, made: usize) -> Failure
    requires { IsFailure trial.now failure }
    ensures fails { IsFailure trial.now result }
    ensures picks { result.picks.items ≡ failure.picks.items }
{
    let Failure {
        picks,
        check,
        front: all,
    } = failure;
    let front = if picks.as_slice().len() as u64 >= u64::from(trial.most) {
        made.min(all)
    } else {
        all
    };
    Failure {
        picks,
        check,
        front,
    }
}

impl Front {
    // Tries another front, and takes it where it fails.
    #[tactic(auto, using(crate::proofs::Shortenings::trying))]
    fn try_steps(
        &mut self,
        alloc: Global,
        trial: &Trial<'_>,
        other: Vec<Pick>,
        best: &mut Failure,
    ) -> Result<bool, HuntFault>
        requires can { CanShorten trial.now self.old best.old }
        requires kinds { KeepsKinds self.old.steps.items other.items }
        ensures shorter { Shortens trial.now self.old best.old self.new best.new }
        ensures err { IfErr result (IsRefusal trial.now) }
    {
        let length = best.picks.as_slice().len();
        let Some(failure) = failure_of(alloc, trial, &mut self.board, other.as_slice(), length)?
        else {
            return Ok(false);
        };
        if failure.check != best.check {
            return Ok(false);
        }
        if !has_no_new_drain(best.picks.as_slice(), failure.picks.as_slice()) {
            return Ok(false);
        }
        // It is not the best, but it fails: what is cut from it next may be simpler.
        if cost(failure.deciding()) > cost(best.deciding()) {
            self.steps = other;
            return Ok(true);
        }
        *best = failure;
        self.steps = other;
        Ok(true)
    }

    // Cuts steps from the end, by halves.
    #[tactic(auto, using(crate::proofs::Shortenings::shortenings))]
    fn cut_behind(
        &mut self,
        alloc: Global,
        trial: &Trial<'_>,
        best: &mut Failure,
    ) -> Result<(), HuntFault>
        requires { CanShorten trial.now self.old best.old }
        ensures shorter { Shortens trial.now self.old best.old self.new best.new }
        ensures err { IfErr result (IsRefusal trial.now) }
    {
        let mut low = 0;
        'tries: for _ in 0..usize::BITS {
            let high = self.steps.len();
            if low >= high {
                return Ok(());
            }
            let middle = low + (high - low) / 2;
            let other = front_of(alloc, self.steps.as_slice(), middle)?;
            if !self.try_steps(alloc, trial, other, best)? {
                low = middle + 1;
            }
        }
        Ok(())
    }

    // Leaves out events, one at a time, the last first.
    #[tactic(auto, using(crate::proofs::Shortenings::shortenings))]
    fn cut_events(
        &mut self,
        alloc: Global,
        trial: &Trial<'_>,
        best: &mut Failure,
    ) -> Result<(), HuntFault>
        requires { CanShorten trial.now self.old best.old }
        ensures shorter { Shortens trial.now self.old best.old self.new best.new }
        ensures err { IfErr result (IsRefusal trial.now) }
    {
        let mut end = self.steps.len();
        'tries: for _ in 0..MOST_TRIES {
            let Some(at) = last_event(self.steps.as_slice(), end) else {
                return Ok(());
            };
            let other = without_event(alloc, self.steps.as_slice(), at)?;
            let _fails = self.try_steps(alloc, trial, other, best)?;
            end = at;
        }
        Ok(())
    }

    // Leaves out bursts, one at a time.
    #[tactic(auto, using(crate::proofs::Shortenings::shortenings))]
    fn cut_bursts(
        &mut self,
        alloc: Global,
        trial: &Trial<'_>,
        best: &mut Failure,
    ) -> Result<(), HuntFault>
        requires { CanShorten trial.now self.old best.old }
        ensures shorter { Shortens trial.now self.old best.old self.new best.new }
        ensures err { IfErr result (IsRefusal trial.now) }
    {
        let mut at = 0;
        'tries: for _ in 0..MOST_TRIES {
            if at >= self.steps.len() {
                return Ok(());
            }
            let end = burst_end(self.steps.as_slice(), at);
            let other = without(alloc, self.steps.as_slice(), at, end)?;
            if !self.try_steps(alloc, trial, other, best)? {
                at = end;
            }
        }
        Ok(())
    }

    // Leaves out steps: halves, quarters and so on, and single steps until none can be left out.
    #[tactic(auto, using(crate::proofs::Shortenings::shortenings))]
    fn cut_steps(
        &mut self,
        alloc: Global,
        trial: &Trial<'_>,
        best: &mut Failure,
    ) -> Result<(), HuntFault>
        requires { CanShorten trial.now self.old best.old }
        ensures shorter { Shortens trial.now self.old best.old self.new best.new }
        ensures err { IfErr result (IsRefusal trial.now) }
    {
        let mut size = self.steps.len() / 2;
        let mut at = 0;
        let mut was_cut = false;
        'tries: for _ in 0..MOST_TRIES {
            if at >= self.steps.len() {
                if size <= 1 && !was_cut {
                    return Ok(());
                }
                size /= 2;
                at = 0;
                was_cut = false;
            }
            let end = at.saturating_add(size.max(1));
            let other = without(alloc, self.steps.as_slice(), at, end)?;
            if self.try_steps(alloc, trial, other, best)? {
                was_cut = true;
            } else {
                at = end;
            }
        }
        Ok(())
    }
}

impl Front {
    // Moves the next burst of the core at an index behind its burst there.
    #[tactic(auto, using(crate::proofs::Shortenings::shortenings))]
    fn join_at(
        &mut self,
        alloc: Global,
        trial: &Trial<'_>,
        at: usize,
        best: &mut Failure,
    ) -> Result<bool, HuntFault>
        requires { CanShorten trial.now self.old best.old }
        ensures shorter { Shortens trial.now self.old best.old self.new best.new }
        ensures err { IfErr result (IsRefusal trial.now) }
    {
        let Some(other) = joined(alloc, self.steps.as_slice(), at)? else {
            return Ok(false);
        };
        self.try_steps(alloc, trial, other, best)
    }

    // Moves bursts of one core side by side.
    #[tactic(auto, using(crate::proofs::Shortenings::shortenings))]
    fn join_bursts(
        &mut self,
        alloc: Global,
        trial: &Trial<'_>,
        best: &mut Failure,
    ) -> Result<(), HuntFault>
        requires { CanShorten trial.now self.old best.old }
        ensures shorter { Shortens trial.now self.old best.old self.new best.new }
        ensures err { IfErr result (IsRefusal trial.now) }
    {
        let mut at = 0;
        'tries: for _ in 0..MOST_TRIES {
            if !self.join_at(alloc, trial, at, best)? {
                at = burst_end(self.steps.as_slice(), at);
            }
            if at >= self.steps.len() {
                return Ok(());
            }
        }
        Ok(())
    }
}

impl Front {
    // Moves each drain to where it may come at the earliest, the first first, so that one behind it may follow.
    #[tactic(auto, using(crate::proofs::Shortenings::simplifying))]
    fn hasten(
        &mut self,
        alloc: Global,
        trial: &Trial<'_>,
        machine: &mut Machine,
        best: &mut Failure,
    ) -> Result<(), HuntFault>
        requires can { CanShorten trial.now self.old best.old }
        requires machine { IsMachineOf trial.now machine.old }
        ensures simpler { Simplifies trial.now best.old best.new }
        ensures err { IfErr result (IsRefusal trial.now) }
    {
        let mut from = 0;
        'tries: for _ in 0..MOST_TRIES {
            let Some(at) = next_drain(best.deciding(), from) else {
                return Ok(());
            };
            self.hasten_at(alloc, trial, machine, at, best)?;
            from = at.saturating_add(1);
        }
        Ok(())
    }

    // Moves the drain at an index of the best schedule to where it may come at the earliest.
    #[tactic(auto, using(crate::proofs::Shortenings::simplifying))]
    fn hasten_at(
        &mut self,
        alloc: Global,
        trial: &Trial<'_>,
        machine: &mut Machine,
        at: usize,
        best: &mut Failure,
    ) -> Result<(), HuntFault>
        requires can { CanShorten trial.now self.old best.old }
        requires machine { IsMachineOf trial.now machine.old }
        ensures can { CanShorten trial.now self.new best.new }
        ensures machine { IsMachineOf trial.now machine.new }
        ensures simpler { Simplifies trial.now best.old best.new }
        ensures err { IfErr result (IsRefusal trial.now) }
    {
        match early_place(trial, machine, best.deciding(), at) {
            Some(place) => self.try_earlier(alloc, trial, place, at, best),
            None => Ok(()),
        }
    }

    // Tries the best schedule with the step at an index moved before the one at a lower index.
    #[tactic(auto, using(crate::proofs::Shortenings::simplifying))]
    fn try_earlier(
        &mut self,
        alloc: Global,
        trial: &Trial<'_>,
        place: usize,
        at: usize,
        best: &mut Failure,
    ) -> Result<(), HuntFault>
        requires { CanShorten trial.now self.old best.old }
        ensures can { CanShorten trial.now self.new best.new }
        ensures simpler { Simplifies trial.now best.old best.new }
        ensures err { IfErr result (IsRefusal trial.now) }
    {
        self.steps = Vec::from_slice(alloc, best.deciding())?;
        let other = moved_before(alloc, self.steps.as_slice(), place, at)?;
        let _fails = self.try_steps(alloc, trial, other, best)?;
        Ok(())
    }
}
