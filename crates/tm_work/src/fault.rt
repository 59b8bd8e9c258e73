//! Why no work was done, or not all of it: no memory (61), or a thread that was not made (60).
//!
//! Memory is asked for before the first thread is started. Either fault gives the board back: as it was, or with
//! the steps of those who worked. That a core has stopped or the history is full is none, but ends a worker.

ghost use Rattle.std.specs.Prelude.{◌≡◌};
ghost use Rattle.tm_work.specs.Faults.{work_number};

use std::fmt;
use thiserror::Error;
use tm_hist::Board;

/// Why no desk was opened, or not all workers started. The board comes back.
#[derive(Drop, Error)]
pub enum WorkFault {
    /// The worker of this core could not be started. Those of the lower cores ran, and the other cores made no step.
    #[error("SpawnRefused")]
    SpawnRefused(u8, Board),
    /// There is no memory for the desk, its seats or the answer. No step was made.
    #[error("NoMemory")]
    NoMemory(Board),
}

impl WorkFault {
    /// The fault's number.
    pub fn code(&self) -> u8
        ensures { result ≡ work_number self.now }
    {
        match self {
            WorkFault::SpawnRefused(_, _) => 60,
            WorkFault::NoMemory(_) => 61,
        }
    }
}

/// The fault's name and core, without the board.
impl fmt::Debug for WorkFault {
    fn fmt<W: fmt::Write>(&self, f: &mut fmt::Formatter<W>) -> fmt::Result {
        match self {
            WorkFault::SpawnRefused(core, _) => write!(f, "SpawnRefused({core}, ..)"),
            WorkFault::NoMemory(_) => write!(f, "NoMemory(..)"),
        }
    }
}
