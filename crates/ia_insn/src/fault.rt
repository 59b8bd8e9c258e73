//! Why bytes are no instruction of the subset: they end too early, begin one that the subset lacks, or have LOCK where
//! it may not stand. Which of them is told where several are so is `ia_decode`'s.

ghost use Rattle.std.specs.Prelude.{◌≡◌};
ghost use Rattle.ia_insn.specs.Fault.{fault_code};

use thiserror::Error;

/// Why bytes are no instruction.
#[derive(Clone, Copy, Debug, PartialEq, Eq, Error)]
pub enum DecodeFault {
    /// The bytes end within an instruction: more bytes could make one of them.
    #[error("Short")]
    Short,
    /// The bytes begin no instruction of the subset.
    #[error("NotInSubset")]
    NotInSubset,
    /// LOCK stands before an instruction that it may not stand before.
    #[error("LockNotAllowed")]
    LockNotAllowed,
}

impl DecodeFault {
    /// The number of the fault: 1 `Short`, 2 `NotInSubset`, 3 `LockNotAllowed`.
    pub fn code(self) -> u8
        ensures { result ≡ fault_code self }
    {
        match self {
            DecodeFault::Short => 1,
            DecodeFault::NotInSubset => 2,
            DecodeFault::LockNotAllowed => 3,
        }
    }
}
