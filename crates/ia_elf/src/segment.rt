//! Program headers (gABI, chapter 5, "Program Header").

ghost use Rattle.std.specs.Prelude.{◌≡◌, ◌+◌, ◌*◌, ◌%◌, ◌≤◌, ◌↔◌, IsTrue, length};
ghost use Rattle.ia_elf.specs.Fields.{e_phoff, segment};
ghost use Rattle.ia_elf.specs.Segments.{HasBytes, HasCode, HasOther, Loads};

use crate::fields::{E_PHOFF, word_at};

/// The segment is loaded.
const PT_LOAD: u32 = 1;

/// The fields of a program header that are read, by their names in the ABI.
#[derive(Clone, Copy)]
pub(crate) struct Segment {
    pub(crate) p_type: u32,
    pub(crate) p_offset: u32,
    pub(crate) p_vaddr: u32,
    pub(crate) p_filesz: u32,
    pub(crate) p_memsz: u32,
    pub(crate) p_flags: u32,
}

/// The program header of this number.
#[tactic(auto, unfolding(crate::specs::Fields::segment))]
pub(crate) fn segment_at(file: &[u8], number: u16) -> Segment
    requires header { 52 ≤ length file.now }
    requires table { e_phoff file.now + 32 * (number + 1) ≤ length file.now }
    ensures { result ≡ segment file.now number }
{
    let at = word_at(file, E_PHOFF) as usize + 32 * usize::from(number);
    Segment {
        p_type: word_at(file, at),
        p_offset: word_at(file, at + 4),
        p_vaddr: word_at(file, at + 8),
        p_filesz: word_at(file, at + 16),
        p_memsz: word_at(file, at + 20),
        p_flags: word_at(file, at + 24),
    }
}

impl Segment {
    /// Whether the segment is loaded and takes memory.
    pub(crate) fn loads(self) -> bool
        ensures { IsTrue result ↔ Loads self }
    {
        self.p_type == PT_LOAD && self.p_memsz > 0
    }

    /// Whether the segment has bytes in the file that are loaded.
    pub(crate) fn has_bytes(self) -> bool
        ensures { IsTrue result ↔ HasBytes self }
    {
        self.loads() && self.p_filesz > 0
    }

    // Whether the flag PF_X, bit 0, is set.
    fn is_executable(self) -> bool
        ensures { IsTrue result ↔ (self.p_flags % 2 ≡ 1) }
    {
        self.p_flags % 2 == 1
    }

    /// Whether these bytes are executable.
    pub(crate) fn has_code(self) -> bool
        ensures { IsTrue result ↔ HasCode self }
    {
        self.has_bytes() && self.is_executable()
    }

    /// Whether these bytes are not executable.
    pub(crate) fn has_other(self) -> bool
        ensures { IsTrue result ↔ HasOther self }
    {
        self.has_bytes() && !self.is_executable()
    }
}
