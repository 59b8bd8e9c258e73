//! Why an image is refused: as a text (`ImageFault`, with its line), or as a program (`LoadFault`, in the order in
//! which its conditions are asked). Numbers of faults are those of docs/FORMATS.md.

ghost use Rattle.std.specs.Prelude.{◌≡◌};
ghost use Rattle.ia_image.specs.ImageText.{image_fault_line, image_fault_number};
ghost use Rattle.ia_image.specs.Load.{fault_number};
ghost use Rattle.ia_image.specs.declared.fault.LoadFault.TheVariants.{NoMemory};

use std::alloc::AllocError;
use thiserror::Error;

/// Why a program is not loaded. Of several faults that apply, the first in the order of these cases is told.
#[derive(Clone, Copy, PartialEq, Eq, Debug, Error)]
pub enum LoadFault {
    /// The image has no bytes.
    #[error("Empty")]
    Empty,
    /// There are not 1 to 64 entries.
    #[error("BadCores")]
    BadCores,
    /// The memory size is no multiple of 4096, below 4096 times the number of cores and one, or above 268,435,456.
    #[error("BadMemorySize")]
    BadMemorySize,
    /// The image ends above the memory size.
    #[error("TooLarge")]
    TooLarge,
    /// There are fewer bytes than the code length says.
    #[error("CodeTooLong")]
    CodeTooLong,
    /// An entry is no address of a byte of the code.
    #[error("EntryOutsideCode")]
    EntryOutsideCode,
    /// The copy of the image could not be allocated.
    #[error("NoMemory")]
    NoMemory,
}

impl LoadFault {
    /// The fault's number.
    pub fn code(self) -> u8
        ensures { result ≡ fault_number self }
    {
        match self {
            LoadFault::Empty => 20,
            LoadFault::TooLarge => 21,
            LoadFault::BadMemorySize => 22,
            LoadFault::BadCores => 23,
            LoadFault::EntryOutsideCode => 24,
            LoadFault::CodeTooLong => 25,
            LoadFault::NoMemory => 26,
        }
    }
}

/// Why an image text is not read.
#[derive(Clone, Copy, PartialEq, Eq, Debug, Error)]
pub enum ImageFault {
    /// The first line that breaks the form, counted from 1.
    #[error("BadImageText")]
    BadImageText(usize),
    /// The bytes of the image could not be allocated.
    #[error("NoMemory")]
    NoMemory,
}

impl ImageFault {
    /// The fault's number.
    pub fn code(self) -> u8
        ensures { result ≡ image_fault_number self }
    {
        match self {
            ImageFault::NoMemory => 26,
            ImageFault::BadImageText(_) => 27,
        }
    }

    /// The line that the fault is told of, counted from 1.
    pub fn line(self) -> Option<usize>
        ensures { result ≡ image_fault_line self }
    {
        match self {
            ImageFault::NoMemory => None,
            ImageFault::BadImageText(line) => Some(line),
        }
    }
}

impl From<AllocError> for ImageFault {
    ghost use Rattle.ia_image.specs.declared.fault.ImageFault.TheVariants as image;

    ghost from_gives = { λ _ fault. fault ≡ image.NoMemory };

    fn from(_refused: AllocError) -> ImageFault {
        ImageFault::NoMemory
    }
}

impl From<AllocError> for LoadFault {
    ghost from_gives = { λ _ fault. fault ≡ NoMemory };

    fn from(_refused: AllocError) -> LoadFault {
        LoadFault::NoMemory
    }
}
