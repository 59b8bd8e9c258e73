//! What a step changes, as values: a [`PageDelta`] and its parts.
//!
//! They are made in `difference` and read by who writes a page; what is done with one is said in words in
//! `specs/Applied.antt`. It holds nothing that stays as it was, so it means something only behind the page before
//! it.

use ia_addr::Access;
use ia_exec::Store;
use ia_regs::Flags;
use tm_model::{CoreState, Hit, Outcome};

/// A byte that was stored.
#[derive(Clone, Copy, PartialEq, Eq, Debug)]
pub struct StoredByte {
    /// Where it stands.
    pub address: u64,
    /// What stands there behind the step.
    pub byte: u8,
}

/// The registers that a step changed, each with its value behind the step.
#[derive(Clone, Copy, PartialEq, Eq, Debug)]
pub struct Changes {
    /// Of EAX, ECX, EDX, EBX, ESP, EBP, ESI and EDI, by number.
    pub gpr: [Option<u32>; 8],
    /// The six flags.
    pub flags: Option<Flags>,
    /// The instruction pointer.
    pub eip: Option<u32>,
}

/// What one step changed.
#[derive(Drop, Debug)]
pub struct PageDelta {
    /// The core that stepped.
    pub core: u8,
    /// What its step was.
    pub outcome: Outcome,
    /// What the core is doing behind the step.
    pub state: CoreState,
    /// The registers of the core that are others behind the step.
    pub registers: Changes,
    /// The lines that joined its read set.
    pub reads: Vec<u32>,
    /// The lines that joined its write set.
    pub writes: Vec<u32>,
    /// Which bytes it loaded.
    pub load: Option<Access>,
    /// The bytes that it stored: of a step inside, those that its transaction keeps for itself; of a commit, all that
    /// it kept; of any other step, memory's. A step whose store is pending has none, and a drain those of its store.
    pub stored: Vec<StoredByte>,
    /// The store that it made and that is pending behind it, behind those that were.
    pub pending: Option<Store>,
    /// For each core, the hit by which the step condemned its transaction, where it did.
    pub hits: [Option<Hit>; 64],
}
