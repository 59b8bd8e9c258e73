//! The checks that an end violates.
//!
//! [`take_up_checks`] is called for ends alone, and keeps of each check the schedule of the first end that violates
//! it; a check that was violated before is not asked again. How a check is judged stands in `tm_condition`.

ghost use Rattle.std.specs.Prelude.{◌≡◌, ◌↔◌, ◌<◌, ℕ, IsTrue, OnOk, Some, length, slice_get};
ghost use Rattle.tm_condition.specs.Conditions.{Violates};
ghost use Rattle.tm_condition.specs.declared.check.Check.{Check};
ghost use Rattle.tm_core.specs.Theorem.{StandsFor};
ghost use Rattle.tm_outcomes.specs.Nodes.{IsNodeState};
ghost use Rattle.tm_outcomes.specs.Schedules.{HasEnded, Situation};
ghost use Rattle.tm_outcomes.specs.Searching.{AreViolations};
ghost use Rattle.tm_outcomes.specs.Verdicts.{IsViolationTold, seen_at};

use crate::nodes::{NodeState, schedule_of};
use crate::task::Task;
use std::alloc::AllocError;
use tm_model::Pick;

/// A check that an end violates.
#[derive(Debug, Drop)]
pub struct Violation {
    /// The check, by its index in the trial's.
    pub check: usize,
    /// The steps of a schedule that leads to the end: of those found, one with the fewest steps that are followed.
    pub schedule: Vec<Pick>,
}

// Whether an end that violates this check was found.
fn is_told(violations: &[Violation], check: usize) -> bool
    ensures { IsTrue result ↔ IsViolationTold violations.now check }
{
    for told in violations {
        if told.check == check {
            return true;
        }
    }
    false
}

/// Takes up the checks that the end at a node violates, where no end was found before that does.
pub fn take_up_checks(
    task: &Task<'_>,
    at: &NodeState<'_>,
    violations: &mut Vec<Violation>,
) -> Result<(), AllocError>
    requires at { IsNodeState task.now.trial at.now }
    requires ended { (now : Situation) → StandsFor at.now.place.now.machine now.state now.doomed → HasEnded now.state }
    requires violations { AreViolations task.now.trial violations.old.items }
    ensures violations { OnOk result (AreViolations task.now.trial violations.new.items) }
    ensures kept { OnOk result ((check : ℕ) → IsViolationTold violations.old.items check →
        IsViolationTold violations.new.items check) }
    ensures found { OnOk result ((check : ℕ) (what : Check) → slice_get task.now.trial.checks.now check ≡ Some what →
        (now : Situation) → StandsFor at.now.place.now.machine now.state now.doomed →
        Violates (seen_at now.state) what → IsViolationTold violations.new.items check) }
{
    for check in 0..task.trial.checks.len() {
        take_up_check(task, at, violations, check)?;
    }
    Ok(())
}

// Takes up this one of them.
fn take_up_check(
    task: &Task<'_>,
    at: &NodeState<'_>,
    violations: &mut Vec<Violation>,
    check: usize,
) -> Result<(), AllocError>
    requires asked { check < length task.now.trial.checks.now }
    requires at { IsNodeState task.now.trial at.now }
    requires ended { (now : Situation) → StandsFor at.now.place.now.machine now.state now.doomed → HasEnded now.state }
    requires violations { AreViolations task.now.trial violations.old.items }
    ensures violations { OnOk result (AreViolations task.now.trial violations.new.items) }
    ensures kept { OnOk result ((other : ℕ) → IsViolationTold violations.old.items other →
        IsViolationTold violations.new.items other) }
    ensures found { OnOk result ((what : Check) → slice_get task.now.trial.checks.now check ≡ Some what →
        (now : Situation) → StandsFor at.now.place.now.machine now.state now.doomed →
        Violates (seen_at now.state) what → IsViolationTold violations.new.items check) }
{
    if is_told(violations.as_slice(), check) {
        return Ok(());
    }
    if !at.place.violates(&task.trial.checks[check]) {
        return Ok(());
    }
    let schedule = schedule_of(task.alloc, at.nodes, at.index)?;
    violations.push(Violation { check, schedule })?;
    Ok(())
}
