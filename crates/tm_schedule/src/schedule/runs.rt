//! Runs: the same step side by side.

ghost use Rattle.std.specs.Prelude.{◌≡◌};

use super::picks::is_same;
use tm_model::Pick;

/// The most steps of a schedule with runs, and of a run.
pub const MOST_STEPS: u32 = 16_777_216;

/// This step, so many times.
#[derive(Clone, Copy)]
pub struct Run {
    pub pick: Pick,
    pub count: u32,
}

impl Run {
    ghost use Rattle.tm_schedule.specs.ScheduleRuns.{run_with};

    /// This run with the next step, where that belongs to it.
    pub fn with(self, pick: Pick) -> Option<Run>
        ensures { result ≡ run_with self pick }
    {
        if is_same(pick, self.pick) && self.count < MOST_STEPS {
            Some(Run {
                pick: self.pick,
                count: self.count + 1,
            })
        } else {
            None
        }
    }
}
