//! How simple a schedule is: the fewer steps, switches and events, the simpler.
//!
//! [`cost`] counts a switch and an event as four steps each, and is compared in `shortening`. It says nothing of
//! what the schedule comes to.

ghost use Rattle.std.specs.Prelude.{◌≡◌, length};
ghost use Rattle.tm_hunt.specs.Cost.{cost_of, events_in, switches_of};

use tm_model::Pick;

/// How often the core changes from one step to the next.
pub fn switches(steps: &[Pick]) -> usize
    ensures { result ≡ switches_of steps.now }
{
    let Some((first, rest)) = steps.split_first() else {
        return 0;
    };
    let mut last = first.core;
    let mut left = rest;
    let mut count = 0;
    'steps: while let Some((pick, behind)) = left.split_first() {
        if pick.core != last {
            count += 1;
        }
        last = pick.core;
        left = behind;
    }
    count
}

/// How many steps come under an event.
pub fn events(steps: &[Pick]) -> usize
    ensures { result ≡ events_in steps.now }
{
    let mut left = steps;
    let mut count = 0;
    'steps: while let Some((pick, behind)) = left.split_first() {
        if pick.event.is_some() {
            count += 1;
        }
        left = behind;
    }
    count
}

/// How simple a schedule is: its steps, four times its switches, and four times its events.
pub fn cost(steps: &[Pick]) -> u128
    ensures { result ≡ cost_of steps.now }
{
    steps.len() as u128 + 4 * switches(steps) as u128 + 4 * events(steps) as u128
}
