//! Why there is no program: the faults of reading, assembling and loading FILE, under one type.
//!
//! Each keeps the number and the line that it has in its own crate; 80 and 82 are of files and numbered here.
//! [`ProgramRefusal`] has misused options beside them, which have a name and no number. Want of memory for a file's
//! bytes is told as that of the loading, but for the source of `asm` as the assembler's.

ghost use Rattle.std.specs.Prelude.{◌≡◌};
ghost use Rattle.elide_program.specs.Faults.{program_line, program_number, unread};

use crate::paths::ReadFault;
use ia_asm::AsmFault;
use ia_elf::ElfFault;
use ia_image::{ImageFault, LoadFault};
use std::alloc::AllocError;
use text_out::{Failed, WriteFault};
use thiserror::Error;

/// A fault of FILE or of its loading, with a number, told on one line. It owns nothing, so that it goes through `?` at
/// no cost.
#[derive(Clone, Copy, Debug, Error)]
pub enum ProgramFault {
    /// An output device failed.
    #[error("{0}")]
    Write(WriteFault),
    /// FILE is a source that is not assembled.
    #[error("{0}")]
    Assemble(AsmFault),
    /// FILE is no image text.
    #[error("{0}")]
    Image(ImageFault),
    /// FILE is an ELF file that is no program for this machine.
    #[error("{0}")]
    Elf(ElfFault),
    /// The program is not loaded.
    #[error("{0}")]
    Load(LoadFault),
    /// A file cannot be read.
    #[error("Input")]
    Input,
    /// A file is longer than 640 MiB.
    #[error("TooLong")]
    TooLong,
}

impl ProgramFault {
    /// The fault's number.
    pub fn code(self) -> u8
        ensures { result ≡ program_number self }
    {
        match self {
            ProgramFault::Write(fault) => fault.code(),
            ProgramFault::Assemble(fault) => fault.code(),
            ProgramFault::Image(fault) => fault.code(),
            ProgramFault::Elf(fault) => fault.code(),
            ProgramFault::Load(fault) => fault.code(),
            ProgramFault::Input => 80,
            ProgramFault::TooLong => 82,
        }
    }

    /// The line of the text that is at fault, from 1.
    pub fn line(self) -> Option<usize>
        ensures { result ≡ program_line self }
    {
        match self {
            ProgramFault::Assemble(fault) => fault.line().map(|line| line as usize),
            ProgramFault::Image(fault) => fault.line(),
            _ => None,
        }
    }
}

impl From<ReadFault> for ProgramFault {
    ghost from_gives = { λ fault given. given ≡ unread fault };

    fn from(fault: ReadFault) -> ProgramFault {
        match fault {
            ReadFault::Failed(_obstacle) => ProgramFault::Input,
            ReadFault::TooLong => ProgramFault::TooLong,
            ReadFault::NoMemory => ProgramFault::Load(LoadFault::NoMemory),
        }
    }
}

/// Why a program is not had: a fault, or an option that was misused.
#[derive(Clone, Copy, Debug)]
pub enum ProgramRefusal {
    /// A fault.
    Fault(ProgramFault),
    /// The option of this name is misused.
    Usage(&'static str),
}

impl From<ProgramFault> for ProgramRefusal {
    ghost use Rattle.elide_program.specs.declared.fault.ProgramRefusal.TheVariants.{Fault};

    ghost from_gives = { λ fault given. given ≡ Fault fault };

    fn from(fault: ProgramFault) -> ProgramRefusal {
        ProgramRefusal::Fault(fault)
    }
}

impl From<ReadFault> for ProgramRefusal {
    ghost use Rattle.elide_program.specs.declared.fault.ProgramRefusal.TheVariants.{Fault};

    ghost from_gives = { λ fault given. given ≡ Fault (unread fault) };

    fn from(fault: ReadFault) -> ProgramRefusal {
        ProgramRefusal::Fault(ProgramFault::from(fault))
    }
}

impl From<ElfFault> for ProgramRefusal {
    ghost use Rattle.elide_program.specs.declared.fault.ProgramFault.TheVariants.{Elf};
    ghost use Rattle.elide_program.specs.declared.fault.ProgramRefusal.TheVariants.{Fault};

    ghost from_gives = { λ fault given. given ≡ Fault (Elf fault) };

    fn from(fault: ElfFault) -> ProgramRefusal {
        ProgramRefusal::Fault(ProgramFault::Elf(fault))
    }
}

impl From<ImageFault> for ProgramRefusal {
    ghost use Rattle.elide_program.specs.declared.fault.ProgramFault.TheVariants.{Image};
    ghost use Rattle.elide_program.specs.declared.fault.ProgramRefusal.TheVariants.{Fault};

    ghost from_gives = { λ fault given. given ≡ Fault (Image fault) };

    fn from(fault: ImageFault) -> ProgramRefusal {
        ProgramRefusal::Fault(ProgramFault::Image(fault))
    }
}

impl From<AsmFault> for ProgramRefusal {
    ghost use Rattle.elide_program.specs.declared.fault.ProgramFault.TheVariants.{Assemble};
    ghost use Rattle.elide_program.specs.declared.fault.ProgramRefusal.TheVariants.{Fault};

    ghost from_gives = { λ fault given. given ≡ Fault (Assemble fault) };

    fn from(fault: AsmFault) -> ProgramRefusal {
        ProgramRefusal::Fault(ProgramFault::Assemble(fault))
    }
}

impl From<LoadFault> for ProgramRefusal {
    ghost use Rattle.elide_program.specs.declared.fault.ProgramFault.TheVariants.{Load};
    ghost use Rattle.elide_program.specs.declared.fault.ProgramRefusal.TheVariants.{Fault};

    ghost from_gives = { λ fault given. given ≡ Fault (Load fault) };

    fn from(fault: LoadFault) -> ProgramRefusal {
        ProgramRefusal::Fault(ProgramFault::Load(fault))
    }
}

impl From<WriteFault> for ProgramRefusal {
    ghost use Rattle.elide_program.specs.declared.fault.ProgramFault.TheVariants.{Write};
    ghost use Rattle.elide_program.specs.declared.fault.ProgramRefusal.TheVariants.{Fault};

    ghost from_gives = { λ fault given. given ≡ Fault (Write fault) };

    fn from(fault: WriteFault) -> ProgramRefusal {
        ProgramRefusal::Fault(ProgramFault::Write(fault))
    }
}

impl From<Failed> for ProgramRefusal {
    ghost use Rattle.elide_program.specs.declared.fault.ProgramFault.TheVariants.{Write};
    ghost use Rattle.elide_program.specs.declared.fault.ProgramRefusal.TheVariants.{Fault};
    ghost use Rattle.text_out.specs.declared.out.WriteFault.TheVariants as failed;

    ghost from_gives = { λ _ given. given ≡ Fault (Write failed.Write) };

    fn from(_failed: Failed) -> ProgramRefusal {
        ProgramRefusal::Fault(ProgramFault::Write(WriteFault::Write))
    }
}

impl From<AllocError> for ProgramRefusal {
    ghost use Rattle.elide_program.specs.declared.fault.ProgramFault.TheVariants.{Load};
    ghost use Rattle.elide_program.specs.declared.fault.ProgramRefusal.TheVariants.{Fault};
    ghost use Rattle.ia_image.specs.declared.fault.LoadFault.TheVariants as want;

    ghost from_gives = { λ _ given. given ≡ Fault (Load want.NoMemory) };

    fn from(_refused: AllocError) -> ProgramRefusal {
        ProgramRefusal::Fault(ProgramFault::Load(LoadFault::NoMemory))
    }
}
