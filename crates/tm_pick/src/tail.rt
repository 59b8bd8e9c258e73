//! Letting the cores run to their ends, one after another, behind a list.
//!
//! [`Tail::next`] keeps to a core until it has stopped, is at a PAUSE or has made its most steps in a row, and then
//! takes the next one by number. Nothing is drawn. [`most_in_a_row`], the bound for this, holds for `priorities`
//! and `seen` too.

ghost use Rattle.std.specs.Prelude.{◌≡◌, ◌<◌, Contains, length};
ghost use Rattle.tm_pick.specs.Rows.{longest_row};

use crate::going::Going;

/// The most steps of a core in a row, in a run that is shorter than half of them.
const FEWEST: u32 = 400;

/// The most steps of a core in a row while others wait, in a run that takes about so many steps.
pub fn most_in_a_row(length: u32) -> u32
    ensures { result ≡ longest_row length }
{
    length.saturating_mul(2).max(FEWEST)
}

/// One core after another: each runs until it stops, is at a PAUSE or has made so many steps in a row.
#[derive(Drop)]
pub struct Tail {
    core: u8,
    most: u32,
    in_a_row: u32,
}

impl Tail {
    /// Goes on with this core, in a run that takes about so many steps.
    pub fn new(core: u8, length: u32) -> Tail
        ensures { result.most ≡ longest_row length }
    {
        Tail {
            core,
            most: most_in_a_row(length),
            in_a_row: 0,
        }
    }

    /// The core of the next step. It is told whether the core of the step before is at a PAUSE.
    pub fn next(&mut self, going: &Going, waits: bool) -> u8
        requires { 0 < length going.now }
        ensures { Contains going.now result }
    {
        let gives_way = (waits && self.in_a_row > 0) || self.in_a_row >= self.most;
        let core = if gives_way {
            going.from(self.core.saturating_add(1))
        } else {
            going.from(self.core)
        };
        self.in_a_row = if core == self.core && !gives_way {
            self.in_a_row.saturating_add(1)
        } else {
            1
        };
        self.core = core;
        core
    }
}
