//! Which steps of a run stand in its page.
//!
//! [`Window::of`] comes behind the first pass, when it is known how many there are, and [`Window::check`] then refuses
//! a page that is too long. Which step is written where is said in `page_telling`.

ghost use Rattle.std.specs.Prelude.{◌≡◌, ◌+◌, ◌-◌, ◌<◌, ◌≤◌, ◌&&◌, IfErr, IfOk, OnErr, OnOk, nat_eq, nat_le, nat_lt};
ghost use Rattle.page_run.specs.Refused.{HasNoWindow};
ghost use Rattle.page_run.specs.Windows.{IsWindow};

use elide_setup::{Extent, Fault, Refusal};

/// The most steps of a page.
pub const MOST_STEPS: u64 = 200_000;

/// Some steps of a run, side by side.
#[derive(Clone, Copy, PartialEq, Eq, Debug)]
pub struct Window {
    /// How many come before them.
    pub from: u64,
    /// How many come before them, and they.
    pub to: u64,
}

impl Window {
    /// The steps of a run of this length that are asked for: those that are there, where more are asked for. It is a
    /// misuse to begin before the first step or behind the last, and to end before the first that stands there.
    pub fn of(extent: &Extent, total: u64) -> Result<Window, Refusal>
        ensures window { IfOk result (IsWindow extent.now.from extent.now.to total) }
        ensures none { IfErr result (HasNoWindow extent.now.from extent.now.to total) }
    {
        let from = extent.before(total)?;
        let to = extent.last(from, total)?;
        Ok(Window { from, to })
    }

    /// Whether the step behind so many others is one of them.
    pub fn holds(self, made: u64) -> bool
        ensures { result ≡ (nat_le self.from made && nat_lt made self.to) }
    {
        self.from <= made && made < self.to
    }

    /// Whether the step behind so many others is the last before them.
    pub fn opens(self, made: u64) -> bool
        ensures { result ≡ nat_eq self.from (made + 1) }
    {
        made < self.from && self.from - made == 1
    }

    /// That they are few enough for a page.
    pub fn check(self) -> Result<(), Refusal>
        ensures few { OnOk result (self.to - self.from ≤ 200000) }
        ensures many { OnErr result (200000 < self.to - self.from) }
    {
        if self.to.saturating_sub(self.from) > MOST_STEPS {
            return Err(Refusal::Fault(Fault::PageTooLong));
        }
        Ok(())
    }
}
