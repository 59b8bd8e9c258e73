//! What a session keeps between two lines, and what is tested before a step of a run.
//!
//! [`SessionState::check_run`] asks in this order whether there is a next pick, whether its core exists, whether
//! there is room for the step, and whether the core is at a breakpoint. [`SessionState::step`] asks nothing of
//! this, as for a step that was requested by itself, and notes whose turn is next. Nothing is read or written here.

ghost use Rattle.std.specs.Prelude.{◌≡◌, ◌↔◌, ℕ, ◌+◌, ◌<◌, ◌≤◌, ◌^◌, Err, IfOk, IfSome, OnErr, Some, is_some, length};
ghost use Rattle.tm_hist.specs.Board.{IsFull, stop_shown};
ghost use Rattle.tm_hist.specs.Machine.{shown_regs, shown_state};
ghost use Rattle.tm_debug.specs.Session.{IsStep, is_midway, is_stopped, next_running, pick_check, plan_check};
ghost use Rattle.tm_debug.specs.Session.{run_check, running_from, start, start_in, told_labels, value_of};

use arrayvec::ArrayVec;
use debug_command::{Manner, Names};
use std::alloc::Global;
use symbols::Symbol;
use tm_hist::{Board, StepFault};
use tm_model::{CoreState, Outcome, Pick};

/// The most breakpoints that are set at once.
pub const MOST_BREAKPOINTS: usize = 64;

/// How the session speaks, its plan, the names of its program, its board, its breakpoints, and the number behind that
/// of the core that was stepped last.
#[derive(Drop)]
pub struct SessionState {
    pub manner: Manner,
    pub plan: Vec<Pick>,
    pub names: Names,
    pub board: Board,
    pub breakpoints: ArrayVec<u32, MOST_BREAKPOINTS>,
    pub next: u8,
}

/// How a run picks the core of each step.
#[derive(Clone, Copy, PartialEq, Eq, Debug)]
pub enum Way {
    /// The next one that has not stopped, round by round.
    InTurn,
    /// By the pick that the plan has behind the steps that are made.
    AlongPlan,
}

/// What the tests before a step of a run come to.
#[derive(Clone, Copy, PartialEq, Eq, Debug)]
pub enum RunCheck {
    /// All cores have stopped.
    AllStopped,
    /// The plan has no further step.
    PlanEnded,
    /// The plan's next step is of a core that there is not, of so many.
    NoCore(u8),
    /// The history is full.
    Full,
    /// This core is at this breakpoint.
    AtBreakpoint(u8, u32),
    /// This pick's core steps.
    Go(Pick),
}

/// Whether a core has stopped.
pub fn is_stopped(board: &Board, core: u8) -> bool
    requires { core < length board.now.machine.views }
    ensures { result ≡ is_stopped board.now core }
{
    match board.machine().state(core) {
        Ok(state) => matches!(state, CoreState::Stopped(_)),
        Err(_) => unreachable!(),
    }
}

// The first core from this number on that has not stopped, of so many that are asked.
fn running_from(board: &Board, core: u32, left: u8) -> Option<u8>
    requires { core + left < 2 ^ 32 }
    ensures first { result ≡ running_from board.now core left }
    ensures exists { IfSome result (λ c. c < length board.now.machine.views) }
    ensures known { IfSome result (λ c. c < length board.now.program.entries) }
{
    if left == 0 {
        return None;
    }
    let found = (core % u32::from(board.cores())) as u8;
    if is_stopped(board, found) {
        running_from(board, core + 1, left - 1)
    } else {
        Some(found)
    }
}

impl SessionState {
    /// A session's state before its first line.
    pub fn new(manner: Manner, plan: Vec<Pick>, names: Names, board: Board) -> SessionState
        ensures { value_of result ≡ start_in manner plan.items names.symbols.items names.labels.items board }
    {
        SessionState {
            manner,
            plan,
            names,
            board,
            breakpoints: ArrayVec::new(),
            next: 0,
        }
    }

    /// [`SessionState::new`] of a session that speaks plainly and has no plan and no names.
    pub fn plain(alloc: Global, board: Board) -> SessionState
        ensures { value_of result ≡ start board }
    {
        SessionState::new(
            Manner::Plain,
            Vec::new(alloc),
            Names {
                symbols: Vec::new(alloc),
                labels: Vec::new(alloc),
            },
            board,
        )
    }

    /// The labels that answers tell: those of a spoken session.
    pub fn told_labels(&self) -> &[Symbol]
        ensures { result.now ≡ told_labels (value_of self.now) }
    {
        match self.manner {
            Manner::Plain => &[],
            Manner::Spoken => self.names.labels.as_slice(),
        }
    }

    // The core whose turn it is.
    fn next_running(&self) -> Option<u8>
        ensures first { result ≡ next_running (value_of self.now) }
        ensures exists { IfSome result (λ c. c < length self.now.board.machine.views) }
        ensures known { IfSome result (λ c. c < length self.now.board.program.entries) }
    {
        running_from(&self.board, u32::from(self.next), self.board.cores())
    }

    // The address that a core shows.
    fn eip(&self, core: u8) -> u32
        requires { core < length self.now.board.machine.views }
        ensures { result ≡ (shown_regs self.now.board.machine core).eip }
    {
        match self.board.machine().regs(core) {
            Ok(regs) => regs.eip,
            Err(_) => unreachable!(),
        }
    }

    // Whether a core is between the two steps of an instruction.
    fn is_midway(&self, core: u8) -> bool
        requires { core < length self.now.board.machine.views }
        ensures { result ≡ is_midway (shown_state self.now.board.machine core) }
    {
        match self.board.machine().state(core) {
            Ok(state) => matches!(state, CoreState::Mid),
            Err(_) => unreachable!(),
        }
    }

    /// The tests before a step of a run.
    #[tactic(auto, unfolding(crate::specs::Session::run_check))]
    pub fn check_run(&self, way: Way, first: bool) -> RunCheck
        ensures check { result ≡ run_check way (value_of self.now) first }
        ensures room { (go : Pick) → result ≡ RunCheck.Go go → (go.core < length self.now.board.program.entries)
            × (IsFull self.now.board → ⊥) }
    {
        match way {
            Way::InTurn => match self.next_running() {
                Some(core) => self.check_pick(Pick { core, event: None }, first),
                None => RunCheck::AllStopped,
            },
            Way::AlongPlan => match self.plan.get(self.board.made() as usize) {
                Some(pick) => self.check_planned(*pick, first),
                None => RunCheck::PlanEnded,
            },
        }
    }

    // The tests before a step by a pick that the plan has.
    fn check_planned(&self, pick: Pick, first: bool) -> RunCheck
        ensures check { result ≡ plan_check (Some pick) first (value_of self.now) }
        ensures room { (go : Pick) → result ≡ RunCheck.Go go → (go.core < length self.now.board.program.entries)
            × (IsFull self.now.board → ⊥) }
    {
        let count = self.board.cores();
        if pick.core < count {
            self.check_pick(pick, first)
        } else {
            RunCheck::NoCore(count)
        }
    }

    // The tests before a step by this pick.
    fn check_pick(&self, pick: Pick, first: bool) -> RunCheck
        requires exists { pick.core < length self.now.board.machine.views }
        requires known { pick.core < length self.now.board.program.entries }
        ensures check { result ≡ pick_check pick first (value_of self.now) }
        ensures room { (go : Pick) → result ≡ RunCheck.Go go → (go.core < length self.now.board.program.entries)
            × (IsFull self.now.board → ⊥) }
    {
        if self.board.made() == self.board.limit() {
            return RunCheck::Full;
        }
        let eip = self.eip(pick.core);
        // The first step is made, or no run would leave a breakpoint; a second of two steps begins nothing.
        if !first && !self.is_midway(pick.core) && self.breakpoints.contains(&eip) {
            RunCheck::AtBreakpoint(pick.core, eip)
        } else {
            RunCheck::Go(pick)
        }
    }

    /// One step of a pick's core, under its event where it has one.
    pub fn step(&mut self, pick: Pick) -> Result<Outcome, StepFault>
        ensures none { result ≡ Err StepFault.NoSuchCore ↔ (length self.old.board.program.entries ≤ pick.core) }
        ensures full { result ≡ Err StepFault.LimitReached ↔
            ((pick.core < length self.old.board.program.entries) × IsFull self.old.board) }
        ensures ok { IfOk result (λ outcome. IsStep (value_of self.old) pick outcome (value_of self.new)) }
        ensures err { OnErr result (value_of self.new ≡ value_of self.old) }
    {
        let _count = self.board.cores();
        let outcome = self.board.step_by(pick)?;
        self.board.is_run();
        self.next = pick.core + 1;
        Ok(outcome)
    }
}
