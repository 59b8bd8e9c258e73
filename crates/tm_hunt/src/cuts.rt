//! Schedules from which steps or events are cut. What they come to is tried; promised is that their events are of
//! the kinds that were there.
//!
//! Each call makes a new list, as a try that does not fail leaves the old one standing. Indices behind the end cut
//! nothing. Which cuts are made, and in what order, is said in `shortening`.

ghost use Rattle.std.specs.Prelude.{IfOk, IfSome, IsTrue, false, true, ◌≡◌};
ghost use Rattle.tm_hunt.specs.Kept.{HasDrain, KeepsKinds};

use std::alloc::{AllocError, Global};
use tm_model::{Event, Pick};

/// The first steps of a list.
#[tactic(auto, using(crate::proofs::KeptKinds::keeps_front))]
pub fn front_of(alloc: Global, steps: &[Pick], count: usize) -> Result<Vec<Pick>, AllocError>
    ensures { IfOk result (λ front. KeepsKinds steps.now front.items) }
{
    Vec::from_slice(alloc, &steps[..count.min(steps.len())])
}

/// The steps without those from an index up to another one.
pub fn without(
    alloc: Global,
    steps: &[Pick],
    start: usize,
    end: usize,
) -> Result<Vec<Pick>, AllocError>
    ensures { IfOk result (λ left. KeepsKinds steps.now left.items) }
{
    let mut left = Vec::with_capacity(alloc, steps.len())?;
    left.extend_from_slice(part(steps, 0, start))?;
    left.extend_from_slice(part(steps, end, steps.len()))?;
    Ok(left)
}

// The steps from an index up to another one, none where they are not there.
#[tactic(auto, using(crate::proofs::KeptKinds::keeps_part, crate::proofs::KeptKinds::keeps_none))]
fn part(steps: &[Pick], start: usize, end: usize) -> &[Pick]
    ensures { KeepsKinds steps.now result.now }
{
    let end = end.min(steps.len());
    if start >= end {
        return &[];
    }
    &steps[start..end]
}

/// Where the steps of one core side by side end that begin at an index.
pub fn burst_end(steps: &[Pick], start: usize) -> usize {
    for index in start..steps.len() {
        if steps[index].core != steps[start].core {
            return index;
        }
    }
    steps.len()
}

/// The steps with the next burst of the core at an index moved behind its burst there, where it has a next one.
pub fn joined(alloc: Global, steps: &[Pick], start: usize) -> Result<Option<Vec<Pick>>, AllocError>
    ensures { IfOk result (λ found. IfSome found (λ moved. KeepsKinds steps.now moved.items)) }
{
    let end = burst_end(steps, start);
    let Some(next) = next_burst(steps, start, end) else {
        return Ok(None);
    };
    let next_end = burst_end(steps, next);
    let mut moved = Vec::with_capacity(alloc, steps.len())?;
    moved.extend_from_slice(part(steps, 0, end))?;
    moved.extend_from_slice(part(steps, next, next_end))?;
    moved.extend_from_slice(part(steps, end, next))?;
    moved.extend_from_slice(part(steps, next_end, steps.len()))?;
    Ok(Some(moved))
}

/// The steps with the one at an index moved before the one at a lower index.
pub fn moved_before(
    alloc: Global,
    steps: &[Pick],
    place: usize,
    at: usize,
) -> Result<Vec<Pick>, AllocError>
    ensures { IfOk result (λ moved. KeepsKinds steps.now moved.items) }
{
    let behind = at.saturating_add(1);
    let mut moved = Vec::with_capacity(alloc, steps.len())?;
    moved.extend_from_slice(part(steps, 0, place))?;
    moved.extend_from_slice(part(steps, at, behind))?;
    moved.extend_from_slice(part(steps, place, at))?;
    moved.extend_from_slice(part(steps, behind, steps.len()))?;
    Ok(moved)
}

/// Where the first drain from an index on stands.
pub fn next_drain(steps: &[Pick], start: usize) -> Option<usize> {
    for index in start..steps.len() {
        if steps[index].event == Some(Event::Drain) {
            return Some(index);
        }
    }
    None
}

// Where the core at an index steps again, from another index on.
fn next_burst(steps: &[Pick], start: usize, from: usize) -> Option<usize> {
    for index in from..steps.len() {
        if start < steps.len() && steps[index].core == steps[start].core {
            return Some(index);
        }
    }
    None
}

/// Where the last step before an index stands that comes under an event.
pub fn last_event(steps: &[Pick], end: usize) -> Option<usize> {
    let mut last = None;
    for index in 0..end.min(steps.len()) {
        if steps[index].event.is_some() {
            last = Some(index);
        }
    }
    last
}

/// The steps without the event of the one at an index.
#[tactic(auto, using(crate::proofs::KeptKinds::keeps_all))]
pub fn without_event(alloc: Global, steps: &[Pick], index: usize) -> Result<Vec<Pick>, AllocError>
    ensures { IfOk result (λ left. KeepsKinds steps.now left.items) }
{
    let Some(pick) = steps.get(index) else {
        return Vec::from_slice(alloc, steps);
    };
    let mut left = Vec::with_capacity(alloc, steps.len())?;
    left.extend_from_slice(part(steps, 0, index))?;
    left.push(Pick {
        core: pick.core,
        event: None,
    })?;
    left.extend_from_slice(part(steps, index.saturating_add(1), steps.len()))?;
    Ok(left)
}

/// Whether a drain is among the steps of a new list only where one is among those of the old one.
pub fn has_no_new_drain(old: &[Pick], new: &[Pick]) -> bool
    ensures { IsTrue result → HasDrain new.now → HasDrain old.now }
{
    !has_drain(new) || has_drain(old)
}

// Whether some step is a drain.
fn has_drain(steps: &[Pick]) -> bool
    ensures some { result ≡ true → HasDrain steps.now }
    ensures none { result ≡ false → HasDrain steps.now → ⊥ }
{
    for pick in steps {
        if pick.event == Some(Event::Drain) {
            return true;
        }
    }
    false
}
