//! The steps of a run that are asked for, by `--from` and `--to`.
//!
//! [`Extent::read`] comes before the run, and takes any numbers; [`Extent::before`] and [`Extent::last`] come behind
//! it, when they can be tested: `--from` first, then `--to`. What is made of the steps is for the caller to say.

ghost use Rattle.std.specs.Prelude.{◌≡◌, ◌≤◌, ◌⊎◌, codes, IfErr, IfOk};
ghost use Rattle.std.specs.Option.{option_copied};
ghost use Rattle.elide_program.specs.Settings.{number_said};
ghost use Rattle.elide_setup.specs.Extents.{ComeBefore, ComeUpTo, HasNoFirst, IsLastBefore, IsNoNumber};

use crate::fault::Refusal;
use elide_program::number_of;

/// The steps that are asked for, before it is known how many there are.
#[derive(Clone, Copy, PartialEq, Eq, Debug)]
pub struct Extent {
    /// `--from`: the first, from 1.
    pub from: Option<u32>,
    /// `--to`: the last.
    pub to: Option<u32>,
}

impl Extent {
    /// All of them.
    pub const ALL: Extent = Extent {
        from: None,
        to: None,
    };

    /// Reads `--from` and `--to`.
    pub fn read(from: Option<&str>, to: Option<&str>) -> Result<Extent, Refusal>
        ensures from { IfOk result (λ extent. extent.from ≡ number_said (option_copied from.entry)) }
        ensures to { IfOk result (λ extent. extent.to ≡ number_said (option_copied to.entry)) }
        ensures misread { IfErr result (λ why. IsNoNumber (codes "--from") (option_copied from.entry) why
            ⊎ IsNoNumber (codes "--to") (option_copied to.entry) why) }
    {
        let from = number_given(from, "--from")?;
        let to = number_given(to, "--to")?;
        Ok(Extent { from, to })
    }

    /// How many of a run of this length come before the first: it is a misuse to begin before the first step of the run
    /// or behind the last.
    pub fn before(&self, total: u64) -> Result<u64, Refusal>
        ensures before { IfOk result (ComeBefore self.now.from total) }
        ensures within { IfOk result (λ before. before ≤ total) }
        ensures none { IfErr result (HasNoFirst self.now.from total) }
    {
        match self.from {
            None => Ok(0),
            Some(0) => Err(Refusal::Usage("--from")),
            Some(first) if u64::from(first) > total => Err(Refusal::Usage("--from")),
            Some(first) => Ok(u64::from(first) - 1),
        }
    }

    /// How many of a run of this length come up to the last, where so many come before the first: those that are there,
    /// where more are asked for. It is a misuse to end before the first.
    pub fn last(&self, before: u64, total: u64) -> Result<u64, Refusal>
        ensures last { IfOk result (ComeUpTo self.now.to before total) }
        ensures within { IfOk result (λ last. last ≤ total) }
        ensures ordered { before ≤ total → IfOk result (λ last. before ≤ last) }
        ensures none { IfErr result (IsLastBefore self.now.to before) }
    {
        match self.to {
            None => Ok(total),
            Some(last) if u64::from(last) <= before => Err(Refusal::Usage("--to")),
            Some(last) => Ok(u64::from(last).min(total)),
        }
    }

    /// Whether the step behind so many others stands there, where there is one.
    pub fn holds(&self, made: u64) -> bool {
        let from = match self.from {
            Some(first) => u64::from(first),
            None => 0,
        };
        from <= made.saturating_add(1) && self.reaches(made)
    }

    /// Whether the step behind so many others is not behind the last.
    pub fn reaches(&self, made: u64) -> bool {
        match self.to {
            Some(last) => made < u64::from(last),
            None => true,
        }
    }
}

// The value of an option that need not be given.
fn number_given(text: Option<&str>, name: &'static str) -> Result<Option<u32>, Refusal>
    ensures number { IfOk result (λ number. number ≡ number_said (option_copied text.entry)) }
    ensures none { IfErr result (IsNoNumber name.entry.now (option_copied text.entry)) }
{
    match text {
        Some(_) => Ok(Some(number_of(text, name)?)),
        None => Ok(None),
    }
}
