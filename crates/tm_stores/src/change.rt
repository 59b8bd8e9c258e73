//! What a step does to the stores of its core that are pending.

ghost use Rattle.std.specs.Prelude.{◌≡◌};
ghost use Rattle.tm_stores.specs.Stores.{change_by};

use tm_model::Outcome;

/// A store, by the step that made it.
#[derive(Clone, Copy, PartialEq, Eq, Debug)]
pub struct MadeStore {
    /// The number of the step, from 1.
    pub step: u64,
    /// The address of the instruction.
    pub eip: u32,
}

/// What a step does to the stores of its core that are pending.
#[derive(Clone, Copy, PartialEq, Eq, Debug)]
pub enum Change {
    /// The step's own store is pending now, behind those that were.
    Pends(MadeStore),
    /// The oldest has reached memory.
    Drains,
    /// They stay.
    Stays,
}

impl Change {
    /// By the outcome of a step, and by whether its store, which would be this one, is pending behind it. A drain comes
    /// in the place of the step, which then stores nothing.
    pub fn by(outcome: Outcome, pends: bool, store: MadeStore) -> Change
        ensures { result ≡ change_by outcome pends store }
    {
        match outcome {
            Outcome::Drained => Change::Drains,
            _ if pends => Change::Pends(store),
            _ => Change::Stays,
        }
    }
}
