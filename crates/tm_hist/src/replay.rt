//! What a serial run answers: a [`Serial`], or the [`SerialFault`] for which there is none.
//!
//! Of a core that is in a transaction at the end, its registers are those before the XBEGIN, as nothing of its body
//! was run. Bytes of open transactions are nowhere in memory. The run itself stands in `one_memory`, and with a queue
//! of pending stores a core in `store_buffers`.

ghost use Rattle.std.specs.Prelude.{◌≡◌, ◌↔◌, ◌<◌, length, IfOk, IsOk};
ghost use Rattle.tm_hist.specs.Serial.{serial_code};
ghost use Rattle.tm_hist.specs.declared.replay.SerialFault.TheVariants.{NoMemory};

use crate::serial_core::SerialCore;
use ia_exec::Store;
use ia_regs::Regs;
use std::alloc::{AllocError, AllocFailed};
use thiserror::Error;
use tm_core::NoSuchCore;
use tm_rule::Stop;

/// Why a history was not run.
#[derive(Clone, Copy, PartialEq, Eq, Debug, Error)]
pub enum SerialFault {
    /// The pair at this index is the first at which the list is no run.
    #[error("NotARun")]
    NotARun(usize),
    /// Memory, the list of cores or their queues of pending stores found no memory.
    #[error("NoMemory")]
    NoMemory,
}

impl SerialFault {
    /// The fault's number.
    pub fn code(self) -> u8
        ensures { result ≡ serial_code self }
    {
        match self {
            SerialFault::NotARun(_index) => 53,
            SerialFault::NoMemory => 54,
        }
    }
}

impl From<AllocError> for SerialFault {
    ghost from_gives = { λ _ fault. fault ≡ NoMemory };

    fn from(_refused: AllocError) -> SerialFault {
        SerialFault::NoMemory
    }
}

impl<T: Drop> From<AllocFailed<T>> for SerialFault {
    ghost from_gives = { λ _ fault. fault ≡ NoMemory };

    fn from(_refused: AllocFailed<T>) -> SerialFault {
        SerialFault::NoMemory
    }
}

/// A history that was run on one flat memory.
#[derive(Debug, Drop)]
pub struct Serial {
    pub(crate) memory: Vec<u8>,
    pub(crate) cores: Vec<SerialCore>,
    // Of each core, the oldest store first; empty where none may be pending.
    pub(crate) pending: Vec<Vec<Store>>,
}

impl Serial {
    ghost use Rattle.tm_hist.specs.Queues.{queue_at};
    ghost use Rattle.tm_hist.specs.Replay.{memory_of, cores_of, pending_of};
    ghost use Rattle.tm_hist.specs.Serial.{base_of, stop_of, core_at};

    /// Memory at the end.
    pub fn memory(&self) -> &[u8]
        ensures { result.now ≡ memory_of self.now }
    {
        self.memory.as_slice()
    }

    /// The registers of a core at the end, those before its outermost XBEGIN where it is in a transaction.
    ///
    /// [`NoSuchCore`] for a number that no core of the program has.
    pub fn regs(&self, core: u8) -> Result<Regs, NoSuchCore>
        ensures exists { IsOk result ↔ (core < length (cores_of self.now)) }
        ensures value { IfOk result (λ regs. regs ≡ base_of (core_at (cores_of self.now) core)) }
    {
        match self.cores.as_slice().get(usize::from(core)) {
            Some(core) => Ok(core.base()),
            None => Err(NoSuchCore),
        }
    }

    /// Why a core stopped, and nothing where it did not.
    ///
    /// [`NoSuchCore`] for a number that no core of the program has.
    pub fn stop(&self, core: u8) -> Result<Option<Stop>, NoSuchCore>
        ensures exists { IsOk result ↔ (core < length (cores_of self.now)) }
        ensures value { IfOk result (λ stop. stop ≡ stop_of (core_at (cores_of self.now) core)) }
    {
        match self.cores.as_slice().get(usize::from(core)) {
            Some(core) => Ok(core.stop()),
            None => Err(NoSuchCore),
        }
    }

    /// The stores of a core that are pending at the end, the oldest first.
    ///
    /// [`NoSuchCore`] for a number that no core of the program has.
    pub fn pending(&self, core: u8) -> Result<&[Store], NoSuchCore>
        ensures exists { IsOk result ↔ (core < length (cores_of self.now)) }
        ensures value { IfOk result (λ stores. stores.now ≡ queue_at (pending_of self.now) core) }
    {
        if usize::from(core) >= self.cores.as_slice().len() {
            return Err(NoSuchCore);
        }
        match self.pending.as_slice().get(usize::from(core)) {
            Some(queue) => Ok(queue.as_slice()),
            None => Ok(&[]),
        }
    }
}
