//! What an instruction comes to, as data: it goes on with a store or none, begins, ends or aborts a transaction, or
//! stops. Nothing is carried out here: who asked writes the store, and knows what an abort leaves.

ghost use Rattle.std.specs.Prelude.{◌≡◌};
ghost use Rattle.ia_regs.specs.declared.Regs.{Regs};
ghost use Rattle.ia_exec.specs.Words.{with_store};
ghost use Rattle.ia_exec.specs.Finished.{IsKept, done_with};
ghost use Rattle.ia_exec.specs.Table.{vector_of, goes_on as going_on, by_depth as outside_or_inside};

use ia_regs::Regs;
use ia_word::Width;
use thiserror::Error;

/// A byte or a doubleword that goes to memory.
#[derive(Clone, Copy, PartialEq, Eq, Debug)]
pub struct Store {
    /// The address of its lowest byte. The access may wrap past 2^32 - 1.
    pub addr: u32,
    /// How many bytes: 1 or 4.
    pub width: Width,
    /// What is stored, 0 to 255 for a byte.
    pub value: u32,
}

/// An exception of the processor (SDM volume 3, "Protected-Mode Exceptions and Interrupts").
#[derive(Clone, Copy, PartialEq, Eq, Debug, Error)]
pub enum Exception {
    /// #DE: the divisor is 0, or the quotient does not fit.
    #[error("Divide")]
    Divide,
    /// #BP: INT3.
    #[error("Breakpoint")]
    Breakpoint,
    /// #UD: UD2.
    #[error("Undefined")]
    Undefined,
    /// #GP(0): XEND outside of a transaction.
    #[error("Protection")]
    Protection,
}

impl Exception {
    /// The vector of the exception: 0, 3, 6 or 13.
    pub fn vector(self) -> u8
        ensures { result ≡ vector_of self }
    {
        match self {
            Exception::Divide => 0,
            Exception::Breakpoint => 3,
            Exception::Undefined => 6,
            Exception::Protection => 13,
        }
    }
}

/// Why an instruction aborts the transaction that it stands in (SDM volume 1, "RTM Abort Status Definition").
#[derive(Clone, Copy, PartialEq, Eq, Debug)]
pub enum AbortKind {
    /// XABORT with this code.
    Explicit(u8),
    /// An XBEGIN at depth 7.
    Nest,
    /// INT3.
    Debug,
    /// Any other fault, HLT, CPUID or PAUSE.
    Other,
}

/// What an instruction comes to.
#[derive(Clone, Copy, PartialEq, Eq)]
pub enum Done {
    /// It goes on with these registers, and with at most one store.
    Go(Regs, Option<Store>),
    /// An exception, outside of transactions.
    Fault(Exception),
    /// HLT, outside of transactions.
    Halt,
    /// An XBEGIN with this fallback. The registers keep their values, and EIP stands behind the instruction.
    Begin(u32),
    /// An XEND inside a transaction. The registers keep their values, and EIP stands behind the instruction.
    End,
    /// The transaction aborts.
    Abort(AbortKind),
}

/// What an instruction comes to, whose registers are changed in place.
#[derive(Clone, Copy, PartialEq, Eq, Debug)]
pub enum Finished {
    /// It goes on and stores nothing.
    Goes,
    /// It goes on, with this store.
    Stores(Store),
    /// An exception, outside of transactions.
    Faults(Exception),
    /// HLT, outside of transactions.
    Halts,
    /// An XBEGIN with this fallback.
    Begins(u32),
    /// An XEND inside a transaction.
    Ends,
    /// The transaction aborts.
    Aborts(AbortKind),
}

/// The instruction goes on, with this store or none.
#[inline(always)]
pub(crate) fn goes_on(store: Option<Store>) -> Finished
    ensures done { (regs : Regs) → done_with result regs ≡ going_on (with_store regs store) }
    ensures kept { (before after : Regs) → IsKept result before after }
{
    match store {
        None => Finished::Goes,
        Some(store) => Finished::Stores(store),
    }
}

/// What an instruction that changes no register comes to outside of transactions, or the abort inside.
#[tactic(auto, using(crate::proofs::Kept::same_is_kept))]
pub(crate) fn by_depth(depth: u8, outside: Finished, inside: AbortKind) -> Finished
    ensures done { (regs : Regs) → done_with result regs ≡
        outside_or_inside depth (done_with outside regs) (Done.Abort inside) }
    ensures kept { (regs : Regs) → IsKept result regs regs }
{
    if depth == 0 {
        outside
    } else {
        Finished::Aborts(inside)
    }
}
