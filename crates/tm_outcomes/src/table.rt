//! The outcomes that were found, each once.
//!
//! [`take_up`] is handed the values that an end shows, with its schedule. Values that are there already are counted
//! and keep the schedule that they have; others come behind the last.

ghost use Rattle.std.specs.Prelude.{◌≡◌, ◌<◌, ℕ, All, IfNone, IfOk, IfSome, List, Some, length, slice_get};
ghost use Rattle.tm_outcomes.specs.Outcomes.{AreDistinct, AreTold, IsOutcome, IsSparing, IsTold};
ghost use Rattle.tm_outcomes.specs.declared.table.FoundOutcome.{FoundOutcome};

use crate::trial::Trial;
use std::alloc::AllocError;
use tm_model::Pick;

/// An outcome.
#[derive(Debug, Drop)]
pub struct FoundOutcome {
    /// The value of each item.
    pub values: Vec<u32>,
    /// The steps of a schedule that shows it: of those found, one with the fewest steps that are followed.
    pub schedule: Vec<Pick>,
    /// How many states that were found show it.
    pub ends: u32,
}

// The outcome with these values.
fn index_of(table: &[FoundOutcome], values: &[u32]) -> Option<usize>
    ensures within { IfSome result (λ index. index < length table.now) }
    ensures this { IfSome result (λ index. (told : FoundOutcome) → slice_get table.now index ≡ Some told →
        told.values.items ≡ values.now) }
    ensures told { IfSome result (λ index. AreTold table.now values.now) }
    ensures none { IfNone result (¬ AreTold table.now values.now) }
{
    for index in 0..table.len() {
        if table[index].values.as_slice() == values {
            return Some(index);
        }
    }
    None
}

/// Takes up an outcome, that of this schedule.
pub fn take_up(
    trial: &Trial<'_>,
    table: &mut Vec<FoundOutcome>,
    values: Vec<u32>,
    schedule: Vec<Pick>,
) -> Result<(), AllocError>
    requires told { All (IsTold trial.now) table.old.items }
    requires outcome { IsOutcome trial.now schedule.items values.items }
    requires sparing { IsSparing trial.now schedule.items }
    ensures told { IfOk result (λ _. All (IsTold trial.now) table.new.items) }
    ensures here { IfOk result (λ _. AreTold table.new.items values.items) }
    ensures kept { IfOk result (λ _. (other : List ℕ) → AreTold table.old.items other → AreTold table.new.items other) }
    ensures once { IfOk result (λ _. AreDistinct table.old.items → AreDistinct table.new.items) }
{
    if let Some(index) = index_of(table.as_slice(), values.as_slice()) {
        let ends = table[index].ends;
        table[index].ends = ends.saturating_add(1);
        return Ok(());
    }
    table.push(FoundOutcome {
        values,
        schedule,
        ends: 1,
    })?;
    Ok(())
}
