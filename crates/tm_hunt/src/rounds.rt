//! Rounds, in which each core that has not stopped steps once.
//!
//! [`round_at_end`] says how long the rounds at the end of a list would be, by the last core alone. [`are_rounds`]
//! then tests a list, one round against the cores of a machine as it stands before, and the others against the
//! first. What the steps come to is not asked.

ghost use Rattle.std.specs.Prelude.{◌≡◌, ◌<◌, IsTrue, length};
ghost use Rattle.tm_hist.specs.Board.{stop_shown};
ghost use Rattle.tm_hist.specs.Machine.{shown_state};
ghost use Rattle.tm_hunt.specs.Cycle.{AreRounds, EachOnce, IsAgain, IsRound, steps_by, turns_of};

use crate::cost::events;
use tm_core::Machine;
use tm_model::{CoreState, Pick};

/// How many steps a round has at the end of a list in which each core that has not stopped steps in turn: as many as it
/// is from the last step of a core to the one before it. None where the core of the last step has no other.
pub fn round_at_end(picks: &[Pick]) -> Option<usize> {
    let (last, before) = picks.split_last()?;
    let mut left = before;
    let mut count: usize = 1;
    'steps: while let Some((pick, rest)) = left.split_last() {
        if pick.core == last.core {
            return Some(count);
        }
        left = rest;
        count = count.saturating_add(1);
    }
    None
}

/// Whether the steps of a list are rounds of so many steps, in the same turn each: of the cores of a machine that have
/// not stopped, under no events.
pub fn are_rounds(machine: &Machine, picks: &[Pick], count: usize) -> bool
    ensures { IsTrue result → AreRounds machine.now picks.now }
{
    if count == 0 || count > picks.len() {
        return false;
    }
    let (round, _rest) = picks.split_at(count);
    is_round(machine, round) && are_again(picks, round)
}

// Whether each core that has not stopped steps once in a list, under no event, and no other core does.
fn is_round(machine: &Machine, picks: &[Pick]) -> bool
    ensures { IsTrue result → IsRound machine.now picks.now }
{
    events(picks) == 0 && each_once(machine, picks)
}

// Whether each core that has not stopped steps once, and no other core does.
fn each_once(machine: &Machine, picks: &[Pick]) -> bool
    ensures { IsTrue result → EachOnce machine.now picks.now (length machine.now.views) }
{
    for core in 0..machine.cores() {
        if steps_by(picks, core) != turns_of(machine, core) {
            return false;
        }
    }
    true
}

// How many steps of a list are of a core.
fn steps_by(picks: &[Pick], core: u8) -> usize
    ensures { result ≡ steps_by core picks.now }
{
    let mut left = picks;
    let mut count = 0;
    'steps: while let Some((pick, behind)) = left.split_first() {
        if pick.core == core {
            count += 1;
        }
        left = behind;
    }
    count
}

// How often a core steps in a round.
fn turns_of(machine: &Machine, core: u8) -> usize
    requires { core < length machine.now.views }
    ensures { result ≡ turns_of (stop_shown (shown_state machine.now core)) }
{
    match machine.state(core) {
        Ok(CoreState::Stopped(_why)) => 0,
        Ok(CoreState::Running) => 1,
        Ok(CoreState::Mid) => 1,
        Ok(CoreState::Open(_depth)) => 1,
        Ok(CoreState::Condemned(_depth)) => 1,
        Err(_) => unreachable!(),
    }
}

// Whether a list is another one, which is not empty, again and again.
fn are_again(picks: &[Pick], round: &[Pick]) -> bool
    ensures { IsTrue result → IsAgain picks.now round.now }
{
    let count = round.len();
    let mut left = picks;
    'rounds: while !left.is_empty() {
        if count == 0 || count > left.len() {
            return false;
        }
        let (front, rest) = left.split_at(count);
        if !are_same(front, round) {
            return false;
        }
        left = rest;
    }
    true
}

// Whether two lists have the same steps.
fn are_same(picks: &[Pick], others: &[Pick]) -> bool
    ensures { IsTrue result → picks.now ≡ others.now }
{
    if picks.len() != others.len() {
        return false;
    }
    for index in 0..picks.len() {
        if !is_same(picks[index], others[index]) {
            return false;
        }
    }
    true
}

fn is_same(pick: Pick, other: Pick) -> bool
    ensures { IsTrue result → pick ≡ other }
{
    pick == other
}
