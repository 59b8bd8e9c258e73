//! What the tests speak of: the code, why a core stops, and what one instruction comes to outside of transactions and
//! inside.
//!
//! Results come in two forms, with the registers or beside registers that are changed in place, which is what a step
//! uses. What stops a core outside is a cause of an abort inside, and no stop.

ghost use Rattle.ia_decode.specs.Offsets.{AreDecoded};

use ia_decode::Decoded;
use ia_exec::Store;
use ia_regs::Regs;
use tm_status::Cause;

/// Why a core stopped. The first four are exceptions of the processor, the others are this project's own.
#[derive(Clone, Copy, PartialEq, Eq, Debug)]
pub enum Stop {
    /// #DE: a divisor of 0, or a quotient that does not fit.
    Divide,
    /// #BP: INT3.
    Breakpoint,
    /// #UD: UD2, or LOCK where it is not allowed.
    Undefined,
    /// #GP: XEND outside of a transaction.
    Protection,
    /// HLT.
    Halt,
    /// A byte that is loaded or stored lies at or above the memory size.
    Range,
    /// A byte that is stored lies in the code.
    CodeStore,
    /// EIP lies outside the code, or the code ends within the instruction.
    Fetch,
    /// The bytes at EIP are no instruction of the subset.
    NotInSubset,
}

/// The code: its bytes, the address of the first, and what decoding gives from each of its first offsets.
#[derive(Clone, Copy)]
pub struct Code<'a> {
    /// The bytes.
    pub bytes: &'a [u8],
    /// The address of the first byte.
    pub base: u32,
    /// What decoding gives from each of the first offsets. What stands further back is decoded at each call.
    pub rows: &'a [Decoded],
    ghost decoded: { AreDecoded bytes.now rows.now },
}

/// What one instruction comes to outside of transactions.
#[derive(Clone, Copy, PartialEq, Eq, Debug)]
pub enum OutsideResult {
    /// It goes on with these registers, and with at most one store.
    Goes(Regs, Option<Store>),
    /// It opens a transaction, with these registers.
    Begins(Regs),
    /// It stops the core.
    Stops(Stop),
}

/// What one instruction comes to outside of transactions, whose registers are changed in place.
#[derive(Clone, Copy, PartialEq, Eq)]
pub enum Outside {
    /// It goes on, with at most one store.
    Goes(Option<Store>),
    /// It opens a transaction.
    Begins,
    /// It stops the core.
    Stops(Stop),
}

/// What one instruction comes to inside a transaction.
#[derive(Clone, Copy, PartialEq, Eq, Debug)]
pub enum InsideResult {
    /// It goes on with these registers, and with at most one store.
    GoesOn(Regs, Option<Store>),
    /// It is an XBEGIN that raises the depth, with these registers.
    Nests(Regs),
    /// It is an XEND that lowers the depth, with these registers.
    Ends(Regs),
    /// The transaction aborts.
    Fails(Cause),
}

/// What one instruction comes to inside a transaction, whose registers are changed in place.
#[derive(Clone, Copy, PartialEq, Eq)]
pub enum Inside {
    /// It goes on, with at most one store.
    GoesOn(Option<Store>),
    /// It is an XBEGIN that raises the depth.
    Nests,
    /// It is an XEND that lowers the depth.
    Ends,
    /// The transaction aborts.
    Fails(Cause),
}
