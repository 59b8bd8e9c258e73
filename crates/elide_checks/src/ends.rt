//! What is checked at the ends of all schedules, as the options of `outcomes` say it: conditions on the machine alone.
//!
//! [`EndChecks::read`] goes by `--check`, then `--forbid`; none is no fault, as a search over all schedules has other
//! uses. A count is read as in a condition of `hunt`, and refused behind that: an end is of many runs, and has none.
//! Whether a machine has what is looked at is asked by [`EndChecks::checks`].

ghost use Rattle.std.specs.Prelude.{◌≡◌, All, IfOk, MatchOption, MatchResult, map};
ghost use Rattle.std.specs.List.{Contains};
ghost use Rattle.elide_checks.specs.Constants.{is_among};
ghost use Rattle.elide_checks.specs.Ends.{AreEndChecks, AreEndChecksBy, IsEndCheckOf, IsOfMachine};
ghost use Rattle.elide_checks.specs.Misread.{IsNoEndCondition, IsOfRun};
ghost use Rattle.elide_checks.specs.Reach.{HasEndCheck};
ghost use Rattle.elide_checks.specs.Refused.{AreMisreadTexts, AreNoChecks, IsMisreadText};
ghost use Rattle.tm_check.specs.declared.clause.RunClause.{RunClause as RunClauseOf};
ghost use Rattle.tm_check.specs.declared.clause.RunClause.TheVariants.{OfMachine};

use crate::adding::{ConditionCheck, ConditionOption, add_checks};
use crate::conditions::condition_of;
use crate::constants::Constants;
use crate::items::Scope;
use crate::reach::has_end_check;
use elide_program::{ProgramFile, add};
use elide_setup::{Fault, Refusal};
use std::alloc::{AllocError, Global};
use tm_check::RunClause;
use tm_condition::{Check, Clause};

/// The checks of the ends of all schedules: those of `--check`, and behind them those of `--forbid`. A run's counts are
/// not among them: an end is reached by many runs.
#[derive(Drop)]
pub struct EndChecks {
    checks: Vec<Check>,
}

impl EndChecks {
    /// Reads the values of `--check` and of `--forbid`, for the program that a text was read as.
    pub fn read(
        alloc: Global,
        demands: &[&str],
        forbids: &[&str],
        text: &[u8],
        file: &ProgramFile<'_>,
    ) -> Result<EndChecks, Refusal>
        ensures { MatchResult result (λ ends. AreEndChecks text.now file.now demands.now forbids.now ends.checks.items)
            (AreNoChecks text.now file.now demands.now forbids.now) }
    {
        let constants = Constants::read(alloc, text, file)?;
        let scope = Scope {
            file,
            constants: &constants,
        };
        let checks = checks_of(alloc, demands, forbids, &scope)?;
        drop(constants);
        Ok(EndChecks { checks })
    }

    /// The checks, for a memory of this size and so many cores.
    pub fn checks(&self, size: u32, cores: u8) -> Result<&[Check], Refusal>
        ensures { MatchResult result
            (λ checks. (checks.now ≡ self.now.checks.items) × All (HasEndCheck size cores) checks.now)
            (λ why. ¬ All (HasEndCheck size cores) self.now.checks.items × (why ≡ Refusal.Fault Fault.OutOfRange)) }
    {
        let checks = self.checks.as_slice();
        if !checks.iter().all(|check| has_end_check(check, size, cores)) {
            return Err(Refusal::Fault(Fault::OutOfRange));
        }
        Ok(checks)
    }
}

impl ConditionCheck for Check {
    ghost says = { IsEndCheckOf };

    ghost says_none = { IsNoEndCondition };

    fn of_text(
        alloc: Global,
        text: &str,
        scope: &Scope<'_, '_, '_>,
        option: ConditionOption,
    ) -> Result<Check, Refusal> {
        let clauses = machine_condition_of(alloc, text, scope, option.name())?;
        match option {
            ConditionOption::Check => Ok(Check::Demanded(clauses)),
            ConditionOption::Forbid => Ok(Check::Forbidden(clauses)),
        }
    }
}

// What the options say.
fn checks_of(
    alloc: Global,
    demands: &[&str],
    forbids: &[&str],
    scope: &Scope<'_, '_, '_>,
) -> Result<Vec<Check>, Refusal>
    ensures { MatchResult result
        (λ checks. AreEndChecksBy scope.now.file.now (is_among scope.now.constants.now.names.items) demands.now
        forbids.now checks.items)
        (AreMisreadTexts (IsNoEndCondition scope.now.file.now (is_among scope.now.constants.now.names.items))
        demands.now
        forbids.now) }
{
    let mut checks = Vec::new(alloc);
    add_checks(alloc, &mut checks, ConditionOption::Check, demands, scope)?;
    add_checks(alloc, &mut checks, ConditionOption::Forbid, forbids, scope)?;
    Ok(checks)
}

// The conditions on a machine that a text says. One on a run's history is a misuse of the option of this name.
fn machine_condition_of(
    alloc: Global,
    text: &str,
    scope: &Scope<'_, '_, '_>,
    name: &'static str,
) -> Result<Vec<Clause>, Refusal>
    ensures { MatchResult result
        (λ clauses. IsOfMachine scope.now.file.now (is_among scope.now.constants.now.names.items)
        text.now clauses.items)
        (IsMisreadText (IsNoEndCondition scope.now.file.now (is_among scope.now.constants.now.names.items) text.now)
        name.now) }
{
    let clauses = condition_of(alloc, text, scope, name)?;
    match on_machine(alloc, clauses)? {
        Some(clauses) => Ok(clauses),
        None => Err(Refusal::Usage(name)),
    }
}

// These conditions, where all are on a machine alone; none, where one is on a run's history.
fn on_machine(alloc: Global, clauses: Vec<RunClause>) -> Result<Option<Vec<Clause>>, AllocError>
    ensures { IfOk result (λ found. MatchOption found
        ((one : RunClauseOf) × Contains clauses.items one × IsOfRun one)
        (λ left. clauses.items ≡ map OfMachine left.items)) }
{
    let mut left = Vec::new(alloc);
    for clause in clauses {
        match clause {
            RunClause::OfMachine(clause) => add(&mut left, clause)?,
            RunClause::Compare(_, _, _) => return Ok(None),
        }
    }
    Ok(Some(left))
}
