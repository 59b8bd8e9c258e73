//! Why a source is refused, and the faults' numbers.

ghost use Rattle.std.specs.Prelude.{◌≡◌};
ghost use Rattle.ia_asm.specs.Faults.{asm_fault, at_line, fault_number, fault_line};
ghost use Rattle.ia_asm.specs.declared.fault.AsmFault.TheVariants.{NoMemory};

use ia_resolve::PlaceFault;
use ia_source::{SourceFault, Why};
use std::alloc::{AllocError, AllocFailed};
use thiserror::Error;

/// Why a source is refused, and the line, counted from 1.
#[derive(Clone, Copy, Debug, PartialEq, Eq, Error)]
pub enum AsmFault {
    /// A character or a number is no token.
    #[error("BadToken")]
    BadToken(u32),
    /// The operands fit no form.
    #[error("BadOperand")]
    BadOperand(u32),
    /// A symbol is defined nowhere; for `equ` and `resb`, above by no `equ`.
    #[error("UnknownSymbol")]
    UnknownSymbol(u32),
    /// A symbol is defined above.
    #[error("SymbolTwice")]
    SymbolTwice(u32),
    /// A number or a value is outside its range, or an item ends too far from the base or past 2^32.
    #[error("Range")]
    Range(u32),
    /// Something else stands where a mnemonic or a directive belongs.
    #[error("NotInSubset")]
    NotInSubset(u32),
    /// The distance of a short jump, LOOP or JECXZ is not from -128 to 127.
    #[error("ShortJumpTooFar")]
    ShortJumpTooFar(u32),
    /// Memory was refused, or reading the source would take more than it may (docs/FORMATS.md, "Source").
    #[error("NoMemory")]
    NoMemory,
}

impl AsmFault {
    /// The fault's number.
    pub fn code(self) -> u8
        ensures { result ≡ fault_number self }
    {
        match self {
            AsmFault::BadToken(_) => 10,
            AsmFault::BadOperand(_) => 11,
            AsmFault::UnknownSymbol(_) => 12,
            AsmFault::SymbolTwice(_) => 13,
            AsmFault::Range(_) => 14,
            AsmFault::NotInSubset(_) => 15,
            AsmFault::ShortJumpTooFar(_) => 16,
            AsmFault::NoMemory => 17,
        }
    }

    /// The line that is at fault.
    pub fn line(self) -> Option<u32>
        ensures { result ≡ fault_line self }
    {
        match self {
            AsmFault::BadToken(line) => Some(line),
            AsmFault::BadOperand(line) => Some(line),
            AsmFault::UnknownSymbol(line) => Some(line),
            AsmFault::SymbolTwice(line) => Some(line),
            AsmFault::Range(line) => Some(line),
            AsmFault::NotInSubset(line) => Some(line),
            AsmFault::ShortJumpTooFar(line) => Some(line),
            AsmFault::NoMemory => None,
        }
    }
}

impl From<AllocError> for AsmFault {
    ghost from_gives = { λ _ e. e ≡ NoMemory };

    fn from(_error: AllocError) -> Self {
        AsmFault::NoMemory
    }
}

impl<T: Drop> From<AllocFailed<T>> for AsmFault {
    ghost from_gives = { λ _ e. e ≡ NoMemory };

    fn from(_error: AllocFailed<T>) -> Self {
        AsmFault::NoMemory
    }
}

impl From<SourceFault> for AsmFault {
    ghost from_gives = { λ f e. e ≡ asm_fault f };

    fn from(fault: SourceFault) -> Self {
        match fault {
            SourceFault::Line { line, why } => match why {
                Why::BadToken => AsmFault::BadToken(line),
                Why::NotInSubset => AsmFault::NotInSubset(line),
                Why::SymbolTwice => AsmFault::SymbolTwice(line),
                Why::BadOperand => AsmFault::BadOperand(line),
            },
            SourceFault::NoMemory => AsmFault::NoMemory,
        }
    }
}

/// A fault of a line, as it is told.
pub fn at_line(fault: PlaceFault, line: u32) -> AsmFault
    ensures { result ≡ at_line fault line }
{
    match fault {
        PlaceFault::UnknownSymbol => AsmFault::UnknownSymbol(line),
        PlaceFault::Range => AsmFault::Range(line),
        PlaceFault::ShortJumpTooFar => AsmFault::ShortJumpTooFar(line),
    }
}
