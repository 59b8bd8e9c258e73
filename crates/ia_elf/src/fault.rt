//! Why a file is refused: no executable of this machine, or one that states what cannot be. Several may apply; the
//! first case is told.

ghost use Rattle.std.specs.Prelude.{◌≡◌};
ghost use Rattle.ia_elf.specs.Faults.{fault_number};
ghost use Rattle.ia_elf.specs.declared.fault.ElfFault.TheVariants.{NoMemory};

use std::alloc::AllocError;
use thiserror::Error;

/// Why a file is not read. Of several faults that apply, the first in the order of these cases is told.
#[derive(Clone, Copy, PartialEq, Eq, Debug, Error)]
pub enum ElfFault {
    /// The file is no ELF file of 32 bits, lowest byte first, for the Intel 80386. Compile with `-m32`.
    #[error("NotForThisMachine")]
    NotForThisMachine,
    /// A header, a segment, a symbol table or a name of one doesn't lie in the file or breaks the form: the file was
    /// cut off or written over. Link it again.
    #[error("Damaged")]
    Damaged,
    /// The file is relocatable or shared, or wants a program interpreter or dynamic linking. Link with `-static` and
    /// without `-pie`, `-shared` and `-r`.
    #[error("NotAnExecutable")]
    NotAnExecutable,
    /// No loadable segment with bytes in the file is executable. Give the code a section like `.text`.
    #[error("NothingToLoad")]
    NothingToLoad,
    /// A loadable segment ends above 268,435,456, the largest memory. Link it at a lower address.
    #[error("TooHigh")]
    TooHigh,
    /// A loadable segment begins below the end of one that stands before it in the table: they overlap, or don't stand
    /// in ascending order.
    #[error("Overlap")]
    Overlap,
    /// A segment with bytes that isn't executable begins below the end of an executable one, as the file's headers do
    /// where the linker loads them. Give the linker a script that puts the code below all else.
    #[error("CodeNotInFront")]
    CodeNotInFront,
    /// The bytes found no memory.
    #[error("NoMemory")]
    NoMemory,
}

impl ElfFault {
    /// The fault's number.
    pub fn code(self) -> u8
        ensures { result ≡ fault_number self }
    {
        match self {
            ElfFault::NotForThisMachine => 90,
            ElfFault::Damaged => 91,
            ElfFault::NotAnExecutable => 92,
            ElfFault::NothingToLoad => 93,
            ElfFault::TooHigh => 94,
            ElfFault::Overlap => 95,
            ElfFault::CodeNotInFront => 96,
            ElfFault::NoMemory => 97,
        }
    }
}

impl From<AllocError> for ElfFault {
    ghost from_gives = { λ _ fault. fault ≡ NoMemory };

    fn from(_refused: AllocError) -> ElfFault {
        ElfFault::NoMemory
    }
}
