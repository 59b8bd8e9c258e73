//! Moves back: [`Target::step_back`] and [`Target::go_back`].
//!
//! No board is stepped backwards: its first steps are made once more on another (`tm_hist`), which takes its place
//! when it is there. A run back first makes the whole history so, to find the latest step that a point stops, and
//! then the steps before that one.

ghost use Rattle.std.specs.Prelude.{◌≡◌, ◌+◌, ◌<◌, ◌==◌, Err, IfNone, IfOk, IfSome, Some, false};
ghost use Rattle.std.specs.Prelude.{length, true};
ghost use Rattle.std.specs.List.{slice_get};
ghost use Rattle.tm_hist.specs.Back.{IsFirst};
ghost use Rattle.tm_hist.specs.Board.{IsHistory, SameBoard};
ghost use Rattle.tm_hist.specs.History.{pairs_of};
ghost use Rattle.tm_model.specs.declared.outcome.Outcome.{Outcome};
ghost use Rattle.tm_gdb.specs.Back.{EndsBack, HasNoneFrom, IsAgain, IsLastOf, RunsBack, StepsBack, TakesStepBack};
ghost use Rattle.tm_gdb.specs.Back.{back_told, excused_at, told_back, watch_or_step};
ghost use Rattle.tm_gdb.specs.Changes.{DoesOrStays};
ghost use Rattle.tm_gdb.specs.Values.{moved_core, value_of};

use crate::points::first_changed;
use crate::stop::Stop;
use crate::target::Target;
use std::alloc::{AllocError, Global};
use tm_hist::{Board, History, first_steps};

/// Where a run back ends: with so many steps still made, at this core, and why.
#[derive(Clone, Copy, Debug)]
pub struct Place {
    pub made: u64,
    pub core: u8,
    pub stop: Stop,
}

// Whether the step at a place of a history is a core's.
fn is_own(history: History<'_>, place: usize, core: u8) -> bool
    requires { place < length (pairs_of history) }
    ensures own { result ≡ true → (outcome : Outcome)
        × (slice_get (pairs_of history.entry) place ≡ Some (core, outcome)) }
    ensures other { result ≡ false → (outcome : Outcome)
        → slice_get (pairs_of history.entry) place ≡ Some (core, outcome) → ⊥ }
{
    match history.get(place) {
        Some((own, _outcome)) => own == core,
        None => false,
    }
}

// The place of the last step of a core in a history.
fn last_own(board: &Board, core: u8) -> Option<u64>
    ensures some { IfSome result (IsLastOf core board.now.history) }
    ensures none { IfNone result (HasNoneFrom core board.now.history 0) }
{
    let history = board.history();
    let mut place = history.len();
    'steps: while place > 0 {
        if is_own(history, place - 1, core) {
            return Some((place - 1) as u64);
        }
        place -= 1;
    }
    None
}

// The board of the first so many steps.
fn first(alloc: Global, board: &Board, count: u64) -> Result<Board, AllocError>
    ensures first { IfOk result (IsFirst board.now count) }
    ensures law { IfOk result (λ first. IsHistory first) }
{
    match first_steps(alloc, board, count) {
        Ok(first) => {
            first.is_run();
            Ok(first)
        }
        // A board that was made has limits within their ranges: what is refused is memory.
        Err(_) => Err(AllocError),
    }
}

// A watchpoint whose bytes are others now.
fn watch_or_step(changed: Option<u32>) -> Stop
    ensures { result ≡ watch_or_step changed }
{
    match changed {
        Some(address) => Stop::Watch(address),
        None => Stop::Stepped,
    }
}

// What ends a run back.
fn watch_or_break(changed: Option<u32>, stands: bool) -> Option<Stop>
    ensures { result ≡ told_back changed stands }
{
    match changed {
        Some(address) => Some(Stop::Watch(address)),
        None => if stands { Some(Stop::Break) } else { None },
    }
}

// Who is excused where a run back ends.
fn excused_at(core: u8, stop: Stop) -> Option<u8>
    ensures { result ≡ excused_at core stop }
{
    match stop {
        Stop::Break => Some(core),
        Stop::Stepped | Stop::End | Stop::Begin | Stop::Watch(_) | Stop::Halted(_) => None,
    }
}

impl Target {
    // Stands on the board before the last step of a core.
    fn stand_before(&mut self, board: Board, core: u8, place: u64)
        requires exists { core < length self.old.board.program.entries }
        requires last { IsLastOf core self.old.board.history place }
        requires first { IsFirst self.old.board place board }
        requires law { IsHistory board }
        ensures back { TakesStepBack core (value_of self.old) place (value_of self.new) }
        ensures same { SameBoard self.old.board self.new.board }
    {
        let _cores = self.board.cores();
        // What the core sees behind its step, while there is a board that shows it.
        let sights = self.points.sights(self.board.machine(), core);
        self.board = board;
        let _cores = self.board.cores();
        let changed = first_changed(sights.as_slice(), self.board.machine(), core);
        self.selected = core;
        self.excused = None;
        self.stop = watch_or_step(changed);
    }

    // Takes steps back up to the last one of a core.
    fn take_back(&mut self, alloc: Global, core: u8, place: u64) -> Result<(), AllocError>
        requires exists { core < length self.old.board.program.entries }
        requires last { IsLastOf core self.old.board.history place }
        ensures { DoesOrStays (λ from to. TakesStepBack core from place to) self.old self.new result }
    {
        let board = first(alloc, &self.board, place)?;
        self.stand_before(board, core, place);
        Ok(())
    }

    /// Takes steps back until one of the core of moves is gone, and none where it has made none.
    pub fn step_back(&mut self, alloc: Global) -> Result<(), AllocError>
        ensures { DoesOrStays (λ from to. StepsBack (moved_core from) from to) self.old self.new result }
    {
        let core = self.moved_core();
        match last_own(&self.board, core) {
            Some(place) => self.take_back(alloc, core, place),
            None => {
                self.selected = core;
                self.excused = None;
                self.stop = Stop::Begin;
                Ok(())
            }
        }
    }

    // What ends a run back at the step of a core, which is made once more.
    fn told_again(&self, board: &mut Board, core: u8, made: u64) -> Option<Stop>
        requires exists { core < length self.now.board.program.entries }
        requires own { (outcome : Outcome) × (slice_get self.now.board.history made ≡ Some (core, outcome)) }
        requires within { made < length self.now.board.history }
        requires before { IsHistory board.old }
        requires so_far { IsFirst self.now.board made board.old }
        ensures again { IsAgain self.now.board made core board.old board.new }
        ensures told { result ≡ back_told (value_of self.now) core board.old board.new }
    {
        let _cores = board.cores();
        let stands = self.points.stands(board.machine(), core);
        let sights = self.points.sights(board.machine(), core);
        board.step_again(&self.board, made);
        board.is_run();
        let _cores = board.cores();
        let changed = first_changed(sights.as_slice(), board.machine(), core);
        watch_or_break(changed, stands)
    }

    // Where a run back ends behind one step more, which is made once more.
    fn again(&self, board: &mut Board, made: u64, place: Place) -> Place
        requires within { made < length self.now.board.history }
        requires before { IsHistory board.old }
        requires so_far { IsFirst self.now.board made board.old }
        requires ends { EndsBack (value_of self.now) made place }
        ensures ends { EndsBack (value_of self.now) (made + 1) result }
        ensures first { IsFirst self.now.board (made + 1) board.new }
        ensures law { IsHistory board.new }
    {
        let Some((core, _outcome)) = self.board.step_at(made as usize) else {
            unreachable!()
        };
        match self.told_again(board, core, made) {
            Some(stop) => Place { made, core, stop },
            None => place,
        }
    }

    // Where a run back ends: before the latest step that a point stops, or at the first.
    fn last_place(&self, alloc: Global) -> Result<Place, AllocError>
        ensures { IfOk result (EndsBack (value_of self.now) (length self.now.board.history)) }
    {
        let mut board = first(alloc, &self.board, 0)?;
        let mut place = Place {
            made: 0,
            core: self.moved_core(),
            stop: Stop::Begin,
        };
        'steps: for made in 0..self.board.made() {
            // A later place takes that of an earlier one: backwards it is met first.
            place = self.again(&mut board, made, place);
        }
        Ok(place)
    }

    /// Takes steps back, the newest first, up to the first whose core stands at a breakpoint then or sees other bytes
    /// at a watchpoint, and all where there is none.
    pub fn go_back(&mut self, alloc: Global) -> Result<(), AllocError>
        ensures { DoesOrStays RunsBack self.old self.new result }
    {
        let place = self.last_place(alloc)?;
        let board = first(alloc, &self.board, place.made)?;
        self.board = board;
        self.selected = place.core;
        self.excused = excused_at(place.core, place.stop);
        self.stop = place.stop;
        Ok(())
    }
}
