//! Want of memory for a board's history, as a type of its own.
//!
//! Only `board` makes a [`HistoryMemory`], and only behind its machine, so that fault 51 is never told in place of
//! 41.

use tm_core::Machine;

/// That memory was refused to a board's history or to its copy of the program. It is made beside a machine alone, so
/// that the want of memory of a machine is never told as a history's.
#[derive(Clone, Copy, PartialEq, Eq, Debug, Drop)]
pub struct HistoryMemory {
    refused: (),
}

impl HistoryMemory {
    // Beside the machine that was made.
    pub(crate) fn beside(_machine: &Machine) -> HistoryMemory {
        HistoryMemory { refused: () }
    }
}
