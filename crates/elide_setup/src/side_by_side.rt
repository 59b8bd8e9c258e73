//! Steps of one core side by side: how many at the front of a list, so that `walk` makes them as one run.
//!
//! [`lone_chunks`] counts whole chunks, for speed; the steps behind them the walk counts by [`is_lone`]. A step under
//! an event is never one of them, as it cannot be made by a run.

ghost use Rattle.std.specs.Prelude.{◌≡◌, ◌≤◌, length, replicate, take, true};
ghost use Rattle.elide_setup.specs.Schedules.{lone_pick};

use tm_model::Pick;

/// Of how many steps at once it is asked whether they are alike.
const CHUNK: usize = 64;

/// How many of the first of these steps, in whole chunks, are of this core, under no event. In a chunk the compiler
/// asks many steps at once.
pub fn lone_chunks(core: u8, steps: &[Pick]) -> usize
    ensures alike { take result steps.now ≡ replicate result (lone_pick core) }
    ensures most { result ≤ length steps.now }
{
    let mut count = 0;
    while CHUNK <= steps.len() - count && are_lone(&steps[count..count + CHUNK], core) {
        count += CHUNK;
    }
    count
}

// Whether all of these steps are of this core, under no event. It does not end at the first that is not, so that no
// step waits for the one before it.
#[inline(always)]
fn are_lone(steps: &[Pick], core: u8) -> bool
    ensures { result ≡ true → steps.now ≡ replicate (length steps.now) (lone_pick core) }
{
    let mut alone = true;
    let mut index = 0;
    while index < steps.len() {
        alone &= is_lone(steps[index], core);
        index += 1;
    }
    alone
}

/// Whether a step is of this core, under no event.
#[inline(always)]
pub fn is_lone(pick: Pick, core: u8) -> bool
    ensures { result ≡ true → pick ≡ lone_pick core }
{
    pick.core == core && pick.event.is_none()
}
