//! How early a drain of a schedule may come: [`early_place`].
//!
//! It makes the steps of the schedule once more on a machine, and looks at how many stores of the drain's core are
//! pending before and behind each. What it answers is tried (`shortening`), and nothing is promised of it.

ghost use Rattle.tm_core.specs.Theorem.{SameMachine};
ghost use Rattle.tm_hunt.specs.Cycle.{IsMachineOf};

use crate::pending::pending_count;
use crate::trial::Trial;
use crate::walker::makes;
use tm_core::Machine;
use tm_model::{Event, Pick};

/// Where the drain at an index may come at the earliest: behind the step that made its store, and behind the drain
/// before it of the same core; nothing where it stands there.
#[tactic(auto, using(crate::proofs::Cycles::of_same))]
pub fn early_place(
    trial: &Trial<'_>,
    machine: &mut Machine,
    picks: &[Pick],
    at: usize,
) -> Option<usize>
    requires { IsMachineOf trial.now machine.old }
    ensures { IsMachineOf trial.now machine.new }
{
    let core = picks.get(at)?.core;
    let (drains, last) = drains_before(picks, core, at);
    machine.reopen(trial.program);
    let place = behind_store(machine, picks, core, drains)?.max(last);
    if place < at { Some(place) } else { None }
}

// How many drains of a core stand before an index, and the index behind the last of them, 0 where there is none.
fn drains_before(picks: &[Pick], core: u8, end: usize) -> (usize, usize) {
    let mut count = 0usize;
    let mut last = 0;
    for index in 0..end.min(picks.len()) {
        if picks[index].core == core && picks[index].event == Some(Event::Drain) {
            count = count.saturating_add(1);
            last = index.saturating_add(1);
        }
    }
    (count, last)
}

// The index behind the step that makes the store of a core before which it makes so many.
#[tactic(auto, using(crate::proofs::Cycles::sames))]
fn behind_store(machine: &mut Machine, picks: &[Pick], core: u8, before: usize) -> Option<usize>
    ensures { SameMachine machine.old machine.new }
{
    let mut made = 0usize;
    'steps: for index in 0..picks.len() {
        let pending = pending_count(machine, core);
        let _as_told = makes(machine, picks[index]);
        if pending_count(machine, core) > pending {
            if made == before {
                return Some(index.saturating_add(1));
            }
            made = made.saturating_add(1);
        }
    }
    None
}
