//! One run on the board of a trial: [`run`].
//!
//! The board is taken back before its first step. Then a step is picked and made, and its core taken out where it
//! stopped, until no core is left, a core has stopped for a reason that violates a check, or the history is full.
//! Whether the run failed is asked behind it, by `attempt`.

ghost use Rattle.std.specs.Prelude.{◌≡◌, ◌≢◌, ◌↔◌, ◌<◌, ◌+◌, ◌++◌, ◌∷◌, ◌⊎◌, [], ℕ, All, Contains, IfErr, IfOk, IsTrue};
ghost use Rattle.std.specs.Prelude.{length};
ghost use Rattle.tm_hist.specs.Board.{IsOwedNext, SameBoard, TellsOf};
ghost use Rattle.tm_rule.specs.declared.kinds.Stop.{Stop};
ghost use Rattle.tm_pick.specs.Kinds.{IsOfKinds};
ghost use Rattle.tm_pick.specs.declared.kinds.Kinds.{Kinds};
ghost use Rattle.tm_hunt.specs.Attempts.{IsBoardRefusal};
ghost use Rattle.tm_hunt.specs.Hunt.{IsOver, IsTrialOf, SomeViolated};
ghost use Rattle.tm_hunt.specs.Runs.{AreLeft, AreStepsOf, AreToldOf, IsStep};

use crate::source::StepSource;
use crate::trial::Trial;
use std::alloc::Global;
use tm_check::{Check, first_violated};
use tm_hist::{Board, BoardFault};
use tm_model::{Outcome, Pick};
use tm_pick::Going;
use tm_rule::Stop;

/// The board of a trial, before its first step.
pub fn board_of(alloc: Global, trial: &Trial<'_>) -> Result<Board, BoardFault>
    ensures ok { IfOk result (IsTrialOf trial.now) }
    ensures err { IfErr result (IsBoardRefusal trial.now) }
{
    Board::new(alloc, trial.program, trial.limits, u64::from(trial.most))
}

/// Takes the board of a trial back before its first step, and makes the steps that are picked: until each core has
/// stopped, or one for a reason that is checked, or the limit is reached.
pub fn run<S: StepSource>(trial: &Trial<'_>, board: &mut Board, source: &mut S)
    requires of_trial { IsTrialOf trial.now board.old }
    ensures of_trial { IsTrialOf trial.now board.new }
    ensures over { IsOver trial.now board.new }
    ensures steps { AreStepsOf S.picks S.kinds source.old board.new }
{
    board.restart();
    step_all(trial, source, board);
}

// Makes the steps that are picked.
fn step_all<S: StepSource>(trial: &Trial<'_>, source: &mut S, board: &mut Board)
    requires new { board.old.history ≡ [] }
    ensures same { SameBoard board.old board.new }
    ensures over { IsOver trial.now board.new }
    ensures steps { AreStepsOf S.picks S.kinds source.old board.new }
{
    let mut going = all_cores(board);
    let mut last = 0;
    'steps: while board.made() < board.limit() {
        if going.is_empty() {
            return;
        }
        let pick = source.next_step(trial.program, board.machine(), last, &going);
        last = pick.core;
        let outcome = step_one(board, &mut going, pick);
        if is_violated(trial, board, outcome) {
            return;
        }
    }
}

// All cores, of which none has stopped before the first step.
#[tactic(auto, using(crate::proofs::Left::all_left))]
fn all_cores(board: &Board) -> Going
    requires { board.now.history ≡ [] }
    ensures { AreLeft board.now result }
{
    board.is_run();
    Going::all(board.machine().cores())
}

// Makes the step of a pick, and takes its core out where it stops.
fn step_one(board: &mut Board, going: &mut Going, pick: Pick) -> Outcome
    requires left { AreLeft board.old going.old }
    requires among { Contains going.old pick.core }
    requires room { length board.old.history < board.old.limit }
    ensures step { IsStep pick board.old board.new }
    ensures left { AreLeft board.new going.new }
    ensures kinds { (kinds : Kinds) → IsOfKinds kinds pick.event → AreToldOf kinds board.old →
        AreToldOf kinds board.new }
{
    board.is_run();
    let outcome = make_step(board, pick);
    board.is_run();
    take_out(going, pick.core, outcome);
    outcome
}

// Takes a core out that has stopped with this outcome.
fn take_out(going: &mut Going, core: u8, outcome: Outcome)
    ensures stopped { (why : Stop) → outcome ≡ Outcome.Stopped why →
        (other : ℕ) → Contains going.new other ↔ (Contains going.old other × (other ≢ core)) }
    ensures goes_on { ((why : Stop) → outcome ≢ Outcome.Stopped why) → going.new ≡ going.old }
{
    match outcome {
        Outcome::Stopped(_why) => going.remove(core),
        _ => {}
    }
}

// Whether a check is violated behind a step with this outcome, which is looked for where a core has stopped.
fn is_violated(trial: &Trial<'_>, board: &Board, outcome: Outcome) -> bool
    ensures { IsTrue result → SomeViolated trial.now board.now }
{
    match outcome {
        Outcome::Stopped(why) => {
            is_checked(trial.checks, why) && first_violated(trial.checks, board).is_some()
        }
        _ => false,
    }
}

// Makes the step of a pick, under its event if it has one. What it comes to tells of that event or of none, or is the
// drain for which the step waits.
fn make_step(board: &mut Board, pick: Pick) -> Outcome
    requires is_core { pick.core < length board.old.program.entries }
    requires room { length board.old.history < board.old.limit }
    ensures same { SameBoard board.old board.new }
    ensures owed { IsOwedNext pick.event board.old pick.core result }
    ensures made { board.new.history ≡ board.old.history ++ (pick.core, result) ∷ [] }
    ensures told { TellsOf pick.event result }
{
    match board.step_by(pick) {
        Ok(outcome) => outcome,
        Err(_) => unreachable!(),
    }
}

// Whether a core that stops for this reason violates a check.
fn is_checked(checks: &[Check], why: Stop) -> bool {
    for check in checks {
        if let Check::NoStop(other) = check {
            if *other == why {
                return true;
            }
        }
    }
    false
}
