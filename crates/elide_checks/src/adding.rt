//! Checks of conditions, added for the values of `--check` and of `--forbid`.
//!
//! [`add_checks`] goes by the values' order, and ends at the first that says none. It is one for all kinds of checks:
//! what a text says, and when it says none, is its [`ConditionCheck`]'s, in `demands` for those of a run and in `ends`
//! for those of the ends of all schedules.

ghost use Rattle.std.specs.Prelude.{◌⊎◌, ◌≡◌, ℕ, Bool, List, MatchResult};
ghost use Rattle.elide_checks.specs.Added.{AreAdded};
ghost use Rattle.elide_checks.specs.Constants.{is_among};
ghost use Rattle.elide_checks.specs.Options.{option_name};
ghost use Rattle.elide_checks.specs.Refused.{HasMisreadText, IsMisreadText};
ghost use Rattle.elide_checks.specs.declared.adding.ConditionOption.{ConditionOption as ConditionOptionOf};
ghost use Rattle.elide_program.specs.declared.file.ProgramFile.{ProgramFile as ProgramFileOf};
ghost use Rattle.elide_setup.specs.Faults.{want};

use crate::items::Scope;
use elide_program::add;
use elide_setup::Refusal;
use std::alloc::Global;

/// An option whose values are conditions.
#[derive(Clone, Copy)]
pub enum ConditionOption {
    /// `--check`: each is to hold.
    Check,
    /// `--forbid`: none is to hold.
    Forbid,
}

impl ConditionOption {
    /// Its name.
    pub fn name(self) -> &'static str
        ensures { result.now ≡ option_name self }
    {
        match self {
            ConditionOption::Check => "--check",
            ConditionOption::Forbid => "--forbid",
        }
    }
}

/// A check that a condition makes.
pub trait ConditionCheck: Sized + Drop {
    // The check that a text says as the value of an option, by the symbols of a program and a test which of them are
    // numbers.
    ghost says: { ProgramFileOf → (List ℕ → Bool) → ConditionOptionOf → List ℕ → Self → Type 0 };

    // What a text is that says none.
    ghost says_none: { ProgramFileOf → (List ℕ → Bool) → List ℕ → Type 0 };

    /// The check of a text that is the value of an option, which is misused where the text says none.
    fn of_text(
        alloc: Global,
        text: &str,
        scope: &Scope<'_, '_, '_>,
        option: ConditionOption,
    ) -> Result<Self, Refusal>
        ensures { MatchResult result
            (says scope.now.file.now (is_among scope.now.constants.now.names.items) option text.now)
            (IsMisreadText
            (says_none scope.now.file.now (is_among scope.now.constants.now.names.items) text.now)
            (option_name option)) };
}

/// Adds the check of each value of an option.
pub fn add_checks<C: ConditionCheck>(
    alloc: Global,
    checks: &mut Vec<C>,
    option: ConditionOption,
    texts: &[&str],
    scope: &Scope<'_, '_, '_>,
) -> Result<(), Refusal>
    ensures { MatchResult result
        (λ _. AreAdded (C.says scope.now.file.now (is_among scope.now.constants.now.names.items) option) texts.now
        checks.old.items checks.new.items)
        (λ why. HasMisreadText (C.says_none scope.now.file.now (is_among scope.now.constants.now.names.items))
        texts.now (option_name option) why ⊎ (why ≡ want)) }
{
    for text in texts {
        let check = C::of_text(alloc, text, scope, option)?;
        add(checks, check)?;
    }
    Ok(())
}
