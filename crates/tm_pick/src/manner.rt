//! The ways to pick, under one type, and what each is told of the core of the step before.
//!
//! [`Manner::heeds`] is asked of the machine behind that step, and its answer handed to [`Manner::next`]; a way
//! that heeds nothing asks nothing of the machine. Just a list has events of its own: those that are drawn are
//! `picker`'s. Which way a run by chance takes is said by `method`.

ghost use Rattle.std.specs.Prelude.{◌≡◌, ◌<◌, Contains, IfNone, IfSome, None, Some, false, length};

use crate::bursts::Bursts;
use crate::chance::Chance;
use crate::front::Front;
use crate::going::Going;
use crate::priorities::Priorities;
use crate::seen::Seen;
use crate::turn::Turn;
use crate::unseen::is_unseen;
use crate::waiting::is_waiting;
use ia_image::Program;
use tm_core::Machine;
use tm_model::Pick;

/// How steps are picked.
#[derive(Drop)]
pub enum Manner<'a> {
    /// Round by round.
    InTurn(Turn),
    /// Each core as likely as another.
    Uniform(Chance),
    /// Bursts of random length.
    Bursts(Bursts),
    /// By random priorities.
    Priorities(Priorities),
    /// Drawn where other cores see it.
    Seen(Seen),
    /// A list, and what comes behind it.
    Front(Front<'a>),
}

impl<'a> Manner<'a> {
    ghost use Rattle.tm_pick.specs.Choices.{IsPicked};
    ghost use Rattle.tm_pick.specs.Kinds.{IsOfKinds};
    ghost use Rattle.tm_pick.specs.Sources.{is_listed, kinds_listed, turn_of};
    ghost use Rattle.tm_pick.specs.Turns.{IsInTurn};

    /// What it heeds of the core of the step before: whether it is at a PAUSE, or whether no other core sees its next
    /// step. The machine is one of the program.
    pub fn heeds(&self, program: &Program, machine: &Machine, core: u8) -> bool {
        match self {
            Manner::Priorities(_) | Manner::Front(_) => is_waiting(program, machine, core),
            Manner::Seen(_) => is_unseen(program, machine, core),
            Manner::InTurn(_) | Manner::Uniform(_) | Manner::Bursts(_) => false,
        }
    }

    /// The next step, with its event where it is a list's. It is told what it heeds.
    pub fn next(&mut self, going: &Going, told: bool) -> Pick
        requires { 0 < length going.now }
        ensures core { Contains going.now result.core }
        ensures event { IsOfKinds (kinds_listed self.old) result.event }
        ensures unlisted { is_listed self.old ≡ false → result.event ≡ None }
        ensures same { kinds_listed self.new ≡ kinds_listed self.old }
        ensures turn { IfSome (turn_of self.old) (λ last. IsInTurn last going.now result.core) }
        ensures goes_on { IfSome (turn_of self.old) (λ last. turn_of self.new ≡ Some (Some result.core)) }
        ensures other { IfNone (turn_of self.old) (turn_of self.new ≡ None) }
        ensures picked { IsPicked told self.old going.now result.core self.new }
    {
        let core = match self {
            Manner::InTurn(turn) => turn.next(going),
            Manner::Uniform(chance) => chance.any(going),
            Manner::Bursts(bursts) => bursts.next(going),
            Manner::Priorities(priorities) => priorities.next(going, told),
            Manner::Seen(seen) => seen.next(going, told),
            Manner::Front(front) => return front.next(going, told),
        };
        Pick { core, event: None }
    }
}
