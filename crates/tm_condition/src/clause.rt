//! Conditions: two values of a machine compared, or bytes that stand at an address.
//!
//! [`all_hold`] goes through a list from the left, and ends at the first that does not hold; all of none hold. A
//! condition with a value or a byte that is not there does not hold, `!=` no more than the others. What a value is
//! stands in `item`.

ghost use Rattle.std.specs.Prelude.{◌↔◌, All, IsTrue};
ghost use Rattle.tm_condition.specs.Conditions.{Holds, StandsAt, seen_of};

use crate::comparison::Comparison;
use crate::item::Item;
use tm_core::Machine;

/// A condition on a machine. What is not there meets none.
#[derive(Debug, Drop)]
pub enum Clause {
    /// The one value compares so with the other.
    Compare(Item, Comparison, Item),
    /// These bytes stand at this address.
    Bytes(u32, Vec<u8>),
}

impl Clause {
    /// Whether it holds.
    pub fn holds(&self, machine: &Machine) -> bool
        ensures { IsTrue result ↔ Holds (seen_of machine.now) self.now }
    {
        match self {
            Clause::Compare(left, comparison, right) => {
                match (left.value(machine), right.value(machine)) {
                    (Some(left), Some(right)) => comparison.holds(left, right),
                    _ => false,
                }
            }
            Clause::Bytes(address, bytes) => stands_at(machine.view(), *address, bytes.as_slice()),
        }
    }
}

// Whether these bytes stand at an address.
fn stands_at(memory: &[u8], address: u32, bytes: &[u8]) -> bool
    ensures { IsTrue result ↔ StandsAt memory.now address bytes.now }
{
    let at = address as usize;
    if bytes.len() > memory.len() || at > memory.len() - bytes.len() {
        return false;
    }
    &memory[at..at + bytes.len()] == bytes
}

/// Whether each of some conditions holds.
pub fn all_hold(clauses: &[Clause], machine: &Machine) -> bool
    ensures { IsTrue result ↔ All (Holds (seen_of machine.now)) clauses.now }
{
    for clause in clauses {
        if !clause.holds(machine) {
            return false;
        }
    }
    true
}
