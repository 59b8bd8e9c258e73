//! Which steps are drawn, and where.

ghost use Rattle.std.specs.Prelude.{◌≡◌, ◌-◌, ◌<◌, ◌≤◌, ◌^◌};

use crate::value::Tenths;

/// The width of a picture in pixels.
pub const WIDTH: u32 = 1200;

/// Where the first step begins, in pixels from the left.
pub const LEFT: u32 = 64;

/// Where the last step ends.
pub const RIGHT: u32 = 1180;

// The pixels between, and ten times as many.
const PIXELS: u64 = 1116;

const TENTHS: u64 = 11160;

/// The steps of a run that are drawn. Here steps are counted from 0; in pictures, as outcome lines stand, from 1.
#[derive(Clone, Copy)]
pub struct Window {
    /// The first step that is drawn.
    pub from: u32,
    /// The step behind the last that is drawn.
    pub to: u32,
    /// How many steps the run has.
    pub total: u32,
    pub ghost ordered: { from ≤ to },
    pub ghost within: { to ≤ total },
    pub ghost counted: { total < 2 ^ 32 },
}

/// The number of a step in pictures.
pub fn number_of(step: u32) -> u32 {
    step.saturating_add(1)
}

impl Window {
    /// How many steps are drawn.
    pub fn steps(&self) -> u32
        ensures { result ≡ self.now.to - self.now.from }
    {
        self.to - self.from
    }

    /// Whether a step is drawn.
    pub fn contains(&self, step: u32) -> bool {
        self.from <= step && step < self.to
    }

    /// Whether a step has 1.5 pixels at least, so that transactions are drawn one by one. These are 744 steps at most.
    pub fn is_detailed(&self) -> bool {
        u64::from(self.steps()) * 3 <= PIXELS * 2
    }

    /// Whether a step has 4 pixels at least, so that steps are drawn one by one. These are 279 steps at most.
    pub fn has_ticks(&self) -> bool {
        u64::from(self.steps()) * 4 <= PIXELS
    }

    /// Whether a step has 40 pixels at least, so that instructions are drawn. These are 27 steps at most.
    pub fn has_instructions(&self) -> bool {
        u64::from(self.steps()) * 40 <= PIXELS
    }

    /// The nearest place between the steps that are drawn: the window's first step, this one, or the one behind the
    /// last.
    pub fn clamped(&self, step: u32) -> u32
        ensures first { self.now.from ≤ result }
        ensures last { result ≤ self.now.to }
        ensures same { self.now.from ≤ step → step ≤ self.now.to → result ≡ step }
    {
        step.max(self.from).min(self.to)
    }

    /// Where a step begins, in tenths of a pixel from the left: within the picture, whatever the step.
    pub fn place(&self, step: u32) -> Tenths
        ensures left { 640 ≤ result.0 }
        ensures right { result.0 ≤ 11800 }
    {
        let steps = u64::from(self.steps().max(1));
        let past = u64::from(step.saturating_sub(self.from));
        let tenths = (past * TENTHS / steps).min(TENTHS);
        Tenths(LEFT * 10 + tenths as u32)
    }

    /// The middle of a step.
    pub fn middle(&self, step: u32) -> Tenths
        ensures left { 640 ≤ result.0 }
        ensures right { result.0 ≤ 11800 }
    {
        let start = self.place(step);
        let end = self.place(step.saturating_add(1));
        Tenths((start.0 + end.0) / 2)
    }

    /// The index of the column of a step, of so many columns.
    pub fn column(&self, step: u32, columns: u32) -> u32
        requires { 1 ≤ columns }
        ensures { result ≤ columns - 1 }
    {
        let steps = u64::from(self.steps().max(1));
        let past = u64::from(step.saturating_sub(self.from));
        let index = past * u64::from(columns) / steps;
        index.min(u64::from(columns - 1)) as u32
    }
}
