//! Why a transaction aborts, and what its status tells of it.
//!
//! A [`Cause`] is one thing that happened in the machine; [`Causes`] are the bits by which a program finds out, which
//! tell less, and may be those of any word. Between them goes `word`.

/// Why a transaction aborts.
#[derive(Clone, Copy, PartialEq, Eq, Debug)]
pub enum Cause {
    /// Another core wrote to a line that the transaction had read or written.
    Conflict,
    /// The transaction touched more lines than there is room for.
    Capacity,
    /// XBEGIN at the greatest depth.
    Nest,
    /// XABORT, with its argument.
    Explicit(u8),
    /// INT3.
    Debug,
    /// Any other fault or stop, and CPUID, PAUSE and HLT.
    Other,
}

/// What a status tells.
#[derive(Clone, Copy, PartialEq, Eq, Debug)]
pub struct Causes {
    /// The argument of the XABORT that aborted (bit 0, and bits 31 to 24).
    pub explicit: Option<u8>,
    /// The transaction may succeed on a retry (bit 1).
    pub retry: bool,
    /// Another core's access conflicted (bit 2).
    pub conflict: bool,
    /// An internal buffer overflowed (bit 3).
    pub capacity: bool,
    /// A debug breakpoint was hit (bit 4).
    pub debug: bool,
    /// The abort came in a nested transaction (bit 5).
    pub nested: bool,
}
