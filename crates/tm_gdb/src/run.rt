//! Runs: steps of the cores that go on, up to what ends them.
//!
//! [`Target::go_on`] asks before each step whose turn it is, whether there is room, and whether the core stands at
//! a breakpoint that was not told last; then the step may itself end the run (`moves`). Only a run of all cores
//! goes along the schedule; any other goes round by round (`turns`).

ghost use Rattle.std.specs.Prelude.{◌≡◌, ◌+◌, ◌<◌, IfSome, Some, false, length, true};
ghost use Rattle.tm_hist.specs.Board.{SameBoard};
ghost use Rattle.tm_gdb.specs.Changes.{CanMake};
ghost use Rattle.tm_gdb.specs.Moves.{Continues, end_core, is_excused, is_to_tell, known_pick, next_pick, pick_check};
ghost use Rattle.tm_gdb.specs.Moves.{planned_pick, run_check};
ghost use Rattle.tm_gdb.specs.Values.{TargetValue, value_of};

use crate::stop::Stop;
use crate::target::Target;
use crate::turns::{Goers, turn_pick};
use tm_hist::Board;
use tm_model::Pick;

/// What the tests before a step of a run come to.
#[derive(Clone, Copy, PartialEq, Eq, Debug)]
pub enum Check {
    /// The run ends: there is no next pick, or no room for its step.
    End,
    /// This core stands at a breakpoint that is to be told.
    Break(u8),
    /// This pick's core steps.
    Go(Pick),
}

// A pick of a core that there is.
fn known_pick(board: &Board, pick: Pick) -> Option<Pick>
    ensures pick { result ≡ known_pick board.now (Some pick) }
    ensures known { IfSome result (λ pick. pick.core < length board.now.program.entries) }
{
    if pick.core < board.cores() {
        Some(pick)
    } else {
        None
    }
}

// The pick that a schedule has behind the steps that are made.
fn planned_pick(plan: &[Pick], board: &Board) -> Option<Pick>
    ensures pick { result ≡ planned_pick plan.now board.now }
    ensures known { IfSome result (λ pick. pick.core < length board.now.program.entries) }
{
    match plan.get(board.made() as usize) {
        Some(pick) => known_pick(board, *pick),
        None => None,
    }
}

// Whether a core's breakpoint was told last.
fn is_excused(excused: Option<u8>, core: u8) -> bool
    ensures { result ≡ is_excused excused core }
{
    match excused {
        Some(held) => held == core,
        None => false,
    }
}

impl Target {
    // The pick of the next step of a run.
    fn next_pick(&self, goers: &Goers) -> Option<Pick>
        ensures pick { result ≡ next_pick goers.now (value_of self.now).plan self.now.board }
        ensures known { IfSome result (λ pick. pick.core < length self.now.board.program.entries) }
    {
        match goers {
            Goers::All => match &self.plan {
                Some(plan) => planned_pick(plan.as_slice(), &self.board),
                None => turn_pick(goers, &self.board),
            },
            Goers::One(_) => turn_pick(goers, &self.board),
            Goers::Those(_) => turn_pick(goers, &self.board),
        }
    }

    // Whether a breakpoint at which a core stands is to be told.
    fn is_to_tell(&self, core: u8) -> bool
        requires { core < length self.now.board.program.entries }
        ensures { result ≡ is_to_tell (value_of self.now) core }
    {
        let _cores = self.board.cores();
        !is_excused(self.excused, core) && self.points.stands(self.board.machine(), core)
    }

    // The tests before a step by a pick.
    fn check_pick(&self, pick: Pick) -> Check
        requires { pick.core < length self.now.board.program.entries }
        ensures check { result ≡ pick_check (Some pick) (value_of self.now) }
        ensures room { (go : Pick) → result ≡ Check.Go go → CanMake self.now.board go.core }
    {
        if self.board.made() == self.board.limit() {
            Check::End
        } else if self.is_to_tell(pick.core) {
            Check::Break(pick.core)
        } else {
            Check::Go(pick)
        }
    }

    // The tests before a step of a run.
    fn check(&self, goers: &Goers) -> Check
        ensures check { result ≡ run_check goers.now (value_of self.now) }
        ensures room { (go : Pick) → result ≡ Check.Go go → CanMake self.now.board go.core }
    {
        match self.next_pick(goers) {
            Some(pick) => self.check_pick(pick),
            None => Check::End,
        }
    }

    // Ends a run behind the steps that are made.
    fn end(&mut self, goers: &Goers)
        ensures value { value_of self.new ≡ record (value_of self.old) {
          selected = end_core goers.now (value_of self.old);
          stop = Stop.End;
        } }
        ensures same { SameBoard self.old.board self.new.board }
    {
        let core = self.core();
        if !goers.goes(core) {
            self.selected = goers.first_from(0, self.board.cores(), core);
        } else {
            self.selected = core;
        }
        self.stop = Stop::End;
    }

    // Ends a run before the step of a core that stands at a breakpoint.
    fn stand(&mut self, core: u8)
        ensures value { value_of self.new ≡ record (value_of self.old) {
          selected = core;
          excused = Some core;
          stop = Stop.Break;
        } }
        ensures same { SameBoard self.old.board self.new.board }
    {
        self.selected = core;
        self.excused = Some(core);
        self.stop = Stop::Break;
    }

    // The step of a run by a pick whose turn it is. Whether the run goes on.
    fn go(&mut self, goers: &Goers, pick: Pick) -> bool
        requires room { CanMake self.old.board pick.core }
        requires turn { run_check goers.now (value_of self.old) ≡ Check.Go pick }
        ensures goes { result ≡ true → (to : TargetValue) → Continues goers.now (value_of self.new) to
            → Continues goers.now (value_of self.old) to }
        ensures ends { result ≡ false → Continues goers.now (value_of self.old) (value_of self.new) }
        ensures same { SameBoard self.old.board self.new.board }
        ensures made { length self.new.board.history ≡ length self.old.board.history + 1 }
        ensures limit { length self.old.board.history < self.old.board.limit }
    {
        let _made = self.board.made();
        match self.advance(pick) {
            Some(stop) => {
                self.stop = stop;
                false
            }
            None => true,
        }
    }

    // A step of a run, or its end. Whether it goes on.
    fn go_step(&mut self, goers: &Goers) -> bool
        ensures goes { result ≡ true → (to : TargetValue) → Continues goers.now (value_of self.new) to
            → Continues goers.now (value_of self.old) to }
        ensures ends { result ≡ false → Continues goers.now (value_of self.old) (value_of self.new) }
        ensures same { SameBoard self.old.board self.new.board }
        ensures made { result ≡ true → length self.new.board.history ≡ length self.old.board.history + 1 }
        ensures limit { result ≡ true → length self.old.board.history < self.old.board.limit }
    {
        match self.check(goers) {
            Check::End => {
                self.end(goers);
                false
            }
            Check::Break(core) => {
                self.stand(core);
                false
            }
            Check::Go(pick) => self.go(goers, pick),
        }
    }

    /// Steps the cores that go on, along the schedule or round by round, up to what ends the run.
    pub fn go_on(&mut self, goers: &Goers)
        ensures run { Continues goers.now (value_of self.old) (value_of self.new) }
        ensures same { SameBoard self.old.board self.new.board }
    {
        'steps: loop {
            if !self.go_step(goers) {
                return;
            }
        }
    }
}
