//! What is checked, as the options of `hunt` say it.
//!
//! [`Demands::read`] goes by `--check`, `--forbid`, `--stop`, `--expect-halt`, and within each by the command line: a
//! check is told by its place in this order. The first that says nothing is the fault, and no check at all is a misuse
//! of `--check`. It needs the program's symbols, but no machine: whether one has what is looked at is asked by
//! [`Demands::checks`] once it is known.

ghost use Rattle.std.specs.Prelude.{◌≡◌, ◌≢◌, ◌⊎◌, ◌++◌, All, MatchOption, MatchResult, OnOk, codes};
ghost use Rattle.elide_args.specs.declared.hunt_options.HuntOptions.{HuntOptions};
ghost use Rattle.elide_setup.specs.Misuse.{IsMisuse};
ghost use Rattle.tm_hist.specs.Lines.{stop_word};
ghost use Rattle.elide_checks.specs.Added.{AreAdded};
ghost use Rattle.elide_checks.specs.Checks.{AreChecks, AreChecksBy, IsCheckOf, IsStopCheck, halt_checks};
ghost use Rattle.elide_checks.specs.Constants.{is_among};
ghost use Rattle.elide_checks.specs.Misread.{IsNoCondition};
ghost use Rattle.elide_checks.specs.Reach.{HasCheck};
ghost use Rattle.elide_checks.specs.Refused.{AreNoDemands, IsNoStop};
ghost use Rattle.elide_setup.specs.Faults.{want};
ghost use Rattle.tm_rule.specs.declared.kinds.Stop.{Stop as StopOf};

use crate::adding::{ConditionCheck, ConditionOption, add_checks};
use crate::conditions::condition_of;
use crate::constants::Constants;
use crate::items::Scope;
use crate::reach::has_check;
use elide_args::HuntOptions;
use elide_program::{ProgramFile, add};
use elide_setup::{Fault, Refusal};
use std::alloc::{AllocError, Global};
use tm_check::Check;
use tm_rule::Stop;

/// The checks of a search, in this order: those of `--check`, of `--forbid`, of `--stop`, and `--expect-halt`.
#[derive(Drop)]
pub struct Demands {
    checks: Vec<Check>,
}

impl Demands {
    /// Reads the options, for the program that a text was read as. One check is wanted at least.
    pub fn read(
        alloc: Global,
        options: &HuntOptions<'_>,
        text: &[u8],
        file: &ProgramFile<'_>,
    ) -> Result<Demands, Refusal>
        ensures { MatchResult result (λ demands. AreChecks text.now file.now options.now demands.checks.items)
            (AreNoDemands file.now options.now) }
    {
        let constants = Constants::read(alloc, text, file)?;
        let scope = Scope {
            file,
            constants: &constants,
        };
        let checks = checks_of(alloc, options, &scope)?;
        drop(constants);
        Ok(Demands { checks })
    }

    /// The checks, for a memory of this size and so many cores.
    pub fn checks(&self, size: u32, cores: u8) -> Result<&[Check], Refusal>
        ensures { MatchResult result
            (λ checks. (checks.now ≡ self.now.checks.items) × All (HasCheck size cores) checks.now)
            (λ why. ¬ All (HasCheck size cores) self.now.checks.items × (why ≡ Refusal.Fault Fault.OutOfRange)) }
    {
        let checks = self.checks.as_slice();
        if !checks.iter().all(|check| has_check(check, size, cores)) {
            return Err(Refusal::Fault(Fault::OutOfRange));
        }
        Ok(checks)
    }
}

impl ConditionCheck for Check {
    ghost says = { IsCheckOf };

    ghost says_none = { λ file _ text. IsNoCondition file text };

    fn of_text(
        alloc: Global,
        text: &str,
        scope: &Scope<'_, '_, '_>,
        option: ConditionOption,
    ) -> Result<Check, Refusal> {
        let clauses = condition_of(alloc, text, scope, option.name())?;
        match option {
            ConditionOption::Check => Ok(Check::Demanded(clauses)),
            ConditionOption::Forbid => Ok(Check::Forbidden(clauses)),
        }
    }
}

// What the options say.
fn checks_of(
    alloc: Global,
    options: &HuntOptions<'_>,
    scope: &Scope<'_, '_, '_>,
) -> Result<Vec<Check>, Refusal>
    ensures { MatchResult result
        (λ checks. AreChecksBy scope.now.file.now (is_among scope.now.constants.now.names.items)
        options.now checks.items)
        (AreNoDemands scope.now.file.now options.now) }
{
    let mut checks = Vec::new(alloc);
    add_checks(
        alloc,
        &mut checks,
        ConditionOption::Check,
        options.checks.as_slice(),
        scope,
    )?;
    add_checks(
        alloc,
        &mut checks,
        ConditionOption::Forbid,
        options.forbids.as_slice(),
        scope,
    )?;
    add_stops(&mut checks, options.stops.as_slice())?;
    add_halt(&mut checks, options.expects_halt)?;
    if checks.is_empty() {
        return Err(Refusal::Usage("--check"));
    }
    Ok(checks)
}

// Adds what each `--stop` says.
fn add_stops(checks: &mut Vec<Check>, words: &[&str]) -> Result<(), Refusal>
    ensures { MatchResult result
        (λ _. AreAdded IsStopCheck words.now checks.old.items checks.new.items)
        (λ why. IsNoStop words.now why ⊎ (why ≡ want)) }
{
    for word in words {
        let why = stop_of(word)?;
        add(checks, Check::NoStop(why))?;
    }
    Ok(())
}

// Adds what `--expect-halt` says, where it is given.
fn add_halt(checks: &mut Vec<Check>, expects_halt: bool) -> Result<(), AllocError>
    ensures { OnOk result (checks.new.items ≡ checks.old.items ++ halt_checks expects_halt) }
{
    if expects_halt {
        add(checks, Check::AllStop)?;
    }
    Ok(())
}

/// A reason to stop by the word of `--stop`. Another word is a misuse.
pub fn stop_of(word: &str) -> Result<Stop, Refusal>
    ensures { MatchResult result (λ why. stop_word why ≡ word.now)
        (λ refusal. ((why : StopOf) → stop_word why ≢ word.now) × IsMisuse (codes "--stop") refusal) }
{
    match stop_named(word) {
        Some(why) => Ok(why),
        None => Err(Refusal::Usage("--stop")),
    }
}

// The reason of a word.
fn stop_named(word: &str) -> Option<Stop>
    ensures { MatchOption result ((why : StopOf) → stop_word why ≢ word.now) (λ why. stop_word why ≡ word.now) }
{
    if word == "#DE" {
        return Some(Stop::Divide);
    }
    if word == "#BP" {
        return Some(Stop::Breakpoint);
    }
    if word == "#UD" {
        return Some(Stop::Undefined);
    }
    if word == "#GP" {
        return Some(Stop::Protection);
    }
    if word == "HLT" {
        return Some(Stop::Halt);
    }
    if word == "range" {
        return Some(Stop::Range);
    }
    if word == "code-store" {
        return Some(Stop::CodeStore);
    }
    if word == "fetch" {
        return Some(Stop::Fetch);
    }
    if word == "not-in-subset" {
        return Some(Stop::NotInSubset);
    }
    None
}
