//! Checks of a run at its end: conditions that have to hold or not to, a stop that is not to be, and that all cores
//! stop.
//!
//! [`first_violated`] asks them in their order, and answers the first that is violated. Conditions are judged only
//! where each core has stopped, and whether all cores stop only where the history is full. What a condition is
//! stands in `clause`; a check of a machine without a history is `tm_condition`'s.

ghost use Rattle.std.specs.Prelude.{◌≡◌, ◌↔◌, ◌<◌, IsTrue, IsNone, IfSome};
ghost use Rattle.tm_hist.specs.Board.{stop_shown};
ghost use Rattle.tm_hist.specs.Machine.{core_count, shown_state};
ghost use Rattle.tm_check.specs.Checks.{AllHold, HasEnded, IsViolated, IsViolatedAt, NoneViolated, StopsBy};

use crate::clause::RunClause;
use tm_core::Machine;
use tm_hist::Board;
use tm_model::CoreState;
use tm_rule::Stop;

/// What is checked of a run at its end. Conditions are judged where each core has stopped; what is not there meets
/// none.
#[derive(Debug, Drop)]
pub enum Check {
    /// All of these conditions hold.
    Demanded(Vec<RunClause>),
    /// Not all of these conditions hold.
    Forbidden(Vec<RunClause>),
    /// No core stops for this reason.
    NoStop(Stop),
    /// Each core stops before the limit on steps.
    AllStop,
}

impl Check {
    /// Whether the check is violated.
    pub fn is_violated(&self, board: &Board) -> bool
        ensures { IsTrue result ↔ IsViolated board.now self.now }
    {
        match self {
            Check::Demanded(clauses) => has_ended(board) && !all_hold(clauses.as_slice(), board),
            Check::Forbidden(clauses) => has_ended(board) && all_hold(clauses.as_slice(), board),
            Check::NoStop(why) => stops_by(board, *why),
            Check::AllStop => board.is_full() && !has_ended(board),
        }
    }
}

/// Whether each core has stopped.
pub fn has_ended(board: &Board) -> bool
    ensures { IsTrue result ↔ HasEnded board.now }
{
    for core in 0..board.cores() {
        if !board.is_stopped(core) {
            return false;
        }
    }
    true
}

// Whether each of some conditions holds.
fn all_hold(clauses: &[RunClause], board: &Board) -> bool
    ensures { IsTrue result ↔ AllHold board.now clauses.now }
{
    for clause in clauses {
        if !clause.holds(board) {
            return false;
        }
    }
    true
}

// Whether some core has stopped for this reason.
fn stops_by(board: &Board, why: Stop) -> bool
    ensures { IsTrue result ↔ StopsBy board.now why }
{
    for core in 0..board.cores() {
        if stop_of(board.machine(), core) == Some(why) {
            return true;
        }
    }
    false
}

// Why a core has stopped, where it has.
fn stop_of(machine: &Machine, core: u8) -> Option<Stop>
    requires { core < core_count machine.now }
    ensures { result ≡ stop_shown (shown_state machine.now core) }
{
    match machine.state(core) {
        Ok(CoreState::Stopped(why)) => Some(why),
        _ => None,
    }
}

/// The first check that is violated, by its index.
pub fn first_violated(checks: &[Check], board: &Board) -> Option<usize>
    ensures some { IfSome result (IsViolatedAt board.now checks.now) }
    ensures none { IsNone result → NoneViolated board.now checks.now }
{
    for index in 0..checks.len() {
        if checks[index].is_violated(board) {
            return Some(index);
        }
    }
    None
}
