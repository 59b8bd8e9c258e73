//! The transactions that steps of other cores doomed.
//!
//! [`Conflicts::note`] takes a hit after another and counts it twice, on its line and among those that are alike;
//! [`Conflicts::sort`] comes once, behind the last. Whom a step hits is not made out here.

ghost use Rattle.std.specs.Prelude.{◌≡◌, ◌+◌, ◌^◌, ◌<◌, ◌∷◌, [], List, OnErr, OnOk, length};

use crate::tally::{Tally, add_one};
use indexmap::IndexMap;
use std::alloc::{AllocError, Global};

/// A hit: a step of one core reached a line of another core's transaction, and doomed it.
#[derive(Clone, Copy, PartialEq, Eq, PartialOrd, Ord, Hash, Default)]
pub struct Conflict {
    /// The number of the line, address / 64.
    pub line: u32,
    /// The EIP of the core that stepped, before the step.
    pub by: u32,
    /// The EIP of the XBEGIN of the transaction that was hit.
    pub victim: u32,
    /// Whether the step stored to the line; else it loaded from it.
    pub stores: bool,
    /// Whether the two met on no byte of the line.
    pub is_apart: bool,
}

/// How many transactions were hit.
#[derive(Drop)]
pub struct Conflicts {
    /// On each line.
    pub lines: Tally<u32>,
    /// Alike in line, places, kind and whether they are of apart bytes.
    pub pairs: Tally<Conflict>,
}

impl Conflicts {
    ghost use Rattle.tm_stats.specs.Conflicts.{AreConflicts};
    ghost use Rattle.tm_stats.specs.declared.conflicts.Conflict.{Conflict};

    /// None.
    pub fn new(alloc: Global) -> Conflicts
        ensures { AreConflicts ⟦<Conflict as PartialEq>⟧.eq result [] }
    {
        Conflicts {
            lines: IndexMap::new(alloc),
            pairs: IndexMap::new(alloc),
        }
    }

    /// Counts one more. Where there is no memory for a row the counts stay as they were.
    pub fn note(&mut self, conflict: Conflict) -> Result<(), AllocError>
        ensures ok { OnOk result ((conflicts : List Conflict) → length conflicts + 1 < 2 ^ 32
            → AreConflicts ⟦<Conflict as PartialEq>⟧.eq self.old conflicts
            → AreConflicts ⟦<Conflict as PartialEq>⟧.eq self.new (conflict ∷ conflicts)) }
        ensures err { OnErr result ((conflicts : List Conflict)
            → AreConflicts ⟦<Conflict as PartialEq>⟧.eq self.old conflicts
            → AreConflicts ⟦<Conflict as PartialEq>⟧.eq self.new conflicts) }
    {
        self.lines.reserve(1)?;
        self.pairs.reserve(1)?;
        add_one(&mut self.lines, conflict.line);
        add_one(&mut self.pairs, conflict);
        Ok(())
    }

    /// Sorts the rows, those with the most first, and those with as many in the order of their keys, which changes no
    /// count.
    pub fn sort(&mut self) -> Result<(), AllocError>
        ensures { (conflicts : List Conflict)
            → AreConflicts ⟦<Conflict as PartialEq>⟧.eq self.old conflicts
            → AreConflicts ⟦<Conflict as PartialEq>⟧.eq self.new conflicts }
    {
        self.lines.sort_keys()?;
        self.pairs.sort_keys()?;
        self.lines.sort_by(|_, left, _, right| right.cmp(left))?;
        self.pairs.sort_by(|_, left, _, right| right.cmp(left))
    }
}
