//! Steps of one core, and what `vCont`, `s` and `c` do.
//!
//! [`Target::advance`] makes each step forward: it looks at the watchpoints before, uses up the event that was
//! named, and looks again behind it. [`Target::resume`] lets one core step, if one is to, and no other then;
//! otherwise those go on that are to (`run`). Whether actions name threads that there are is asked in `answer`.

ghost use Rattle.std.specs.Prelude.{◌≡◌, ◌<◌, IfSome, length, true};
ghost use Rattle.tm_hist.specs.Board.{SameBoard};
ghost use Rattle.tm_gdb.specs.Changes.{CanMake};
ghost use Rattle.tm_gdb.specs.Moves.{Continues, IsOneMore, IsStep, IsStepAlone, Resumes, StepsAlone, can_step};
ghost use Rattle.tm_gdb.specs.Moves.{continues_by};
ghost use Rattle.tm_gdb.specs.Moves.{excused_behind, goers_of, selected_goers, stepping_core, told_by};
ghost use Rattle.tm_gdb.specs.Values.{cores_of, moved_core, value_of};

use crate::points::first_changed;
use crate::stop::{Stop, stop_of};
use crate::target::Target;
use crate::turns::{Goers, goers_of, stepping_from, steps};
use gdb_packet::Actions;
use tm_debug::is_stopped;
use tm_hist::Board;
use tm_model::{Outcome, Pick};

// The step that a pick tells of, of a core that there is and for which there is room.
fn make(board: &mut Board, pick: Pick) -> Outcome
    requires { CanMake board.old pick.core }
    ensures { IsOneMore pick.event board.old pick.core result board.new }
{
    match board.step_by(pick) {
        Ok(outcome) => {
            board.is_run();
            outcome
        }
        Err(_) => unreachable!(),
    }
}

// Who is excused behind the step of a core.
fn excused_behind(excused: Option<u8>, core: u8) -> Option<u8>
    ensures { result ≡ excused_behind excused core }
{
    match excused {
        Some(held) => if held == core { None } else { Some(held) },
        None => None,
    }
}

// What a step tells.
fn told_by(changed: Option<u32>, outcome: Outcome) -> Option<Stop>
    ensures { result ≡ told_by changed outcome }
{
    match changed {
        Some(address) => Some(Stop::Watch(address)),
        None => stop_of(outcome),
    }
}

impl Target {
    /// One step of a pick's core, and what it tells.
    pub fn advance(&mut self, pick: Pick) -> Option<Stop>
        requires { CanMake self.old.board pick.core }
        ensures { IsStep (value_of self.old) pick result (value_of self.new) }
    {
        let _cores = self.board.cores();
        let sights = self.points.sights(self.board.machine(), pick.core);
        let under = Pick {
            core: pick.core,
            event: self.event.or(pick.event),
        };
        let outcome = make(&mut self.board, under);
        self.selected = pick.core;
        self.excused = excused_behind(self.excused, pick.core);
        self.event = None;
        let _cores = self.board.cores();
        let changed = first_changed(sights.as_slice(), self.board.machine(), pick.core);
        told_by(changed, outcome)
    }

    // Whether a core can step: it has not stopped, and there is room for its step.
    fn can_step(&self, core: u8) -> bool
        requires { core < length self.now.board.machine.views }
        ensures can { result ≡ can_step self.now.board core }
    {
        self.board.made() != self.board.limit() && !is_stopped(&self.board, core)
    }

    // One step of a core that can step.
    fn step_once(&mut self, core: u8)
        requires exists { core < length self.old.board.program.entries }
        requires can { can_step self.old.board core ≡ true }
        ensures step { IsStepAlone core (value_of self.old) (value_of self.new) }
        ensures same { SameBoard self.old.board self.new.board }
    {
        let told = self.advance(Pick { core, event: None });
        self.excused = None;
        self.stop = told.unwrap_or(Stop::Stepped);
    }

    /// One step of a core, and none where it has stopped or the history is full.
    pub fn step_alone(&mut self, core: u8)
        requires exists { core < length self.old.board.program.entries }
        ensures step { StepsAlone core (value_of self.old) (value_of self.new) }
        ensures same { SameBoard self.old.board self.new.board }
    {
        let _cores = self.board.cores();
        if self.can_step(core) {
            self.step_once(core);
        } else {
            self.selected = core;
            self.stop = Stop::End;
        }
    }

    // The core that is to step, if one is.
    fn stepping_core(&self, actions: &Actions) -> Option<u8>
        ensures core { result ≡ stepping_core actions.now (value_of self.now) }
        ensures exists { IfSome result (λ core. core < length self.now.board.program.entries) }
    {
        let own = self.moved_core();
        if steps(actions, own) {
            Some(own)
        } else {
            stepping_from(actions, 0, self.board.cores())
        }
    }

    // The cores that are to go on do.
    fn continue_those(&mut self, actions: &Actions)
        ensures run { continues_by (goers_of actions.now (cores_of (value_of self.old))) (value_of self.old)
            (value_of self.new) }
        ensures same { SameBoard self.old.board self.new.board }
    {
        match goers_of(actions, self.board.cores()) {
            Some(goers) => self.go_on(&goers),
            None => {}
        }
    }

    /// What each thread is told to do: one core steps, if one is to, else those go on that are to.
    pub fn resume(&mut self, actions: &Actions)
        ensures moves { Resumes actions.now (value_of self.old) (value_of self.new) }
        ensures same { SameBoard self.old.board self.new.board }
    {
        match self.stepping_core(actions) {
            Some(core) => self.step_alone(core),
            None => self.continue_those(actions),
        }
    }

    // The cores that `c` lets go on.
    fn selected_goers(&self) -> Goers
        ensures { result ≡ selected_goers self.now.for_moves (value_of self.now) }
    {
        match self.for_moves {
            Some(_) => Goers::One(self.moved_core()),
            None => Goers::All,
        }
    }

    /// All cores go on, or the one that was chosen for moves: `c`.
    pub fn continue_selected(&mut self)
        ensures moves { Continues (selected_goers self.old.for_moves (value_of self.old)) (value_of self.old)
            (value_of self.new) }
        ensures same { SameBoard self.old.board self.new.board }
    {
        let goers = self.selected_goers();
        self.go_on(&goers);
    }

    /// One step of the core of moves: `s`.
    pub fn step_selected(&mut self)
        ensures moves { StepsAlone (moved_core (value_of self.old)) (value_of self.old) (value_of self.new) }
        ensures same { SameBoard self.old.board self.new.board }
    {
        let core = self.moved_core();
        self.step_alone(core);
    }
}
