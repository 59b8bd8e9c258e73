//! A schedule that is given, and what comes behind it.
//!
//! [`Front::next`] goes through the list from the left, past the steps of cores that have stopped, and each pick
//! has the event that the list says. Once the list is used up the cores run to their ends (`tail`) or in turn
//! (`turn`), under no event. Events that are drawn besides are put in by `picker`.

ghost use Rattle.std.specs.Prelude.{◌≡◌, ◌<◌, Contains, IfSome, length};

use crate::going::Going;
use crate::tail::Tail;
use crate::turn::Turn;
use std::marker::Model;
use tm_model::Pick;

/// The steps of a list, of which those of cores that have stopped are left out, and what comes behind them, under no
/// events. Contracts see the kinds of the list's events.
#[derive(Drop)]
pub struct Front<'a> {
    steps: &'a [Pick],
    // How many of them were made or left out.
    read: usize,
    // How many of them were made.
    made: usize,
    behind: Behind,
}

/// What comes behind a list of steps.
#[derive(Drop)]
pub enum Behind {
    /// One core after another to its end.
    EachToItsEnd(Tail),
    /// Round by round.
    InTurn(Turn),
}

impl Behind {
    // The next step. It is told whether the core of the step before is at a PAUSE.
    fn next(&mut self, going: &Going, waits: bool) -> u8
        requires { 0 < length going.now }
        ensures { Contains going.now result }
    {
        match self {
            Behind::EachToItsEnd(tail) => tail.next(going, waits),
            Behind::InTurn(turn) => turn.next(going),
        }
    }
}

impl<'a> Model for Front<'a> {
    ghost use Rattle.tm_pick.specs.Listed.{kinds_in};
    ghost use Rattle.tm_pick.specs.declared.kinds.Kinds.{Kinds};

    ghost Value = { Kinds };

    ghost view = { λ front. kinds_in front.steps.now };
}

impl<'a> Front<'a> {
    ghost use Rattle.tm_pick.specs.Kinds.{IsOfKinds};
    ghost use Rattle.tm_pick.specs.Listed.{kinds_in};

    /// The steps of this list, and behind it one core after another to its end, the core of the last step first, in a
    /// run that takes about so many steps.
    pub fn to_the_ends(steps: &'a [Pick], length: u32) -> Front<'a>
        ensures { result ≡ kinds_in steps.now }
    {
        let last = match steps.last() {
            Some(pick) => pick.core,
            None => 0,
        };
        Front {
            steps,
            read: 0,
            made: 0,
            behind: Behind::EachToItsEnd(Tail::new(last, length)),
        }
    }

    /// The steps of this list, and behind it each core in turn, the one behind the core of the last step first.
    pub fn in_turn(steps: &'a [Pick]) -> Front<'a>
        ensures { result ≡ kinds_in steps.now }
    {
        let last = match steps.last() {
            Some(pick) => Some(pick.core),
            None => None,
        };
        Front {
            steps,
            read: 0,
            made: 0,
            behind: Behind::InTurn(Turn::behind(last)),
        }
    }

    /// How many steps of the list were made.
    pub fn made(&self) -> usize {
        self.made
    }

    /// The next step. It is told whether the core of the step before is at a PAUSE.
    pub fn next(&mut self, going: &Going, waits: bool) -> Pick
        requires { 0 < length going.now }
        ensures core { Contains going.now result.core }
        ensures event { IsOfKinds self.old result.event }
        ensures same { self.new ≡ self.old }
    {
        let Some(index) = first_going(self.steps, self.read, going) else {
            self.read = self.steps.len();
            return Pick {
                core: self.behind.next(going, waits),
                event: None,
            };
        };
        self.read = index + 1;
        self.made = self.made.saturating_add(1);
        let pick = self.steps[index];
        Pick {
            core: going.from(pick.core),
            event: pick.event,
        }
    }
}

// Where the next step of a core that has not stopped is, from an index on.
fn first_going(steps: &[Pick], from: usize, going: &Going) -> Option<usize>
    ensures { IfSome result (λ index. index < length steps.now) }
{
    for index in from..steps.len() {
        if going.contains(steps[index].core) {
            return Some(index);
        }
    }
    None
}
