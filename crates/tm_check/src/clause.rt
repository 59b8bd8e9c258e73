//! Conditions on a run's end, among whose values counts of its history may be.
//!
//! [`RunClause::holds`] makes a number of each count, and leaves the comparing to `tm_condition`. Whether the run
//! has come to an end is asked before, by `check`.

ghost use Rattle.std.specs.Prelude.{◌≡◌, ◌↔◌, IsTrue};
ghost use Rattle.tm_check.specs.Checks.{HoldsAt, item_of};

use crate::count::Count;
use tm_condition::{Clause, Comparison, Item};
use tm_hist::Board;

/// A value of a run's end.
#[derive(Clone, Copy, PartialEq, Eq, Debug)]
pub enum Quantity {
    /// One of its machine.
    OfMachine(Item),
    /// A count of its history.
    OfRun(Count),
}

impl Quantity {
    // The value as one of a machine: a count is a number.
    fn item(self, board: &Board) -> Item
        ensures { result ≡ item_of board.now self }
    {
        match self {
            Quantity::OfMachine(item) => item,
            Quantity::OfRun(count) => Item::Number(count.of(board)),
        }
    }
}

/// A condition on a run's end.
#[derive(Debug, Drop)]
pub enum RunClause {
    /// One on its machine.
    OfMachine(Clause),
    /// The one value compares so with the other.
    Compare(Quantity, Comparison, Quantity),
}

impl RunClause {
    /// Whether it holds.
    pub fn holds(&self, board: &Board) -> bool
        ensures { IsTrue result ↔ HoldsAt board.now self.now }
    {
        match self {
            RunClause::OfMachine(clause) => clause.holds(board.machine()),
            RunClause::Compare(left, comparison, right) => {
                let clause = Clause::Compare(left.item(board), *comparison, right.item(board));
                clause.holds(board.machine())
            }
        }
    }
}
