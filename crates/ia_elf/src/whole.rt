//! Whether a file is for this machine, and whole.

ghost use Rattle.std.specs.Prelude.{◌≡◌, ◌+◌, ◌*◌, ◌<◌, ◌≤◌, ◌↔◌, IsTrue, IfNone, IfSome, length};
ghost use Rattle.ia_elf.specs.Faults.{IsWhole};
ghost use Rattle.ia_elf.specs.Segments.{EachSegment, IsForThisMachine, IsHeaderWhole, IsSegmentWhole};
ghost use Rattle.ia_elf.specs.Tables.{AreTables};

use crate::fields::{
    E_MACHINE, E_PHENTSIZE, E_PHNUM, E_PHOFF, E_VERSION, EI_CLASS, EI_DATA, EI_VERSION, HEADER,
    half_at, is_elf, word_at,
};
use crate::segment::{Segment, segment_at};
use crate::tables::{Tables, read_tables};

/// The Intel 80386 and what came after it.
const EM_386: u16 = 3;

/// How many bytes a program header has.
const SEGMENT: usize = 32;

/// Whether this is an ELF file of 32 bits, lowest byte first, for IA-32.
pub(crate) fn is_for_this_machine(file: &[u8]) -> bool
    ensures { IsTrue result ↔ IsForThisMachine file.now }
{
    is_elf(file)
        && file.len() >= E_MACHINE + 2
        && file[EI_CLASS] == 1
        && file[EI_DATA] == 1
        && half_at(file, E_MACHINE) == EM_386
}

// Whether the file header and the program headers lie in the file.
fn has_headers(file: &[u8]) -> bool
    ensures { IsTrue result ↔ IsHeaderWhole file.now }
{
    if file.len() < HEADER || file[EI_VERSION] != 1 || word_at(file, E_VERSION) != 1 {
        return false;
    }
    let count = usize::from(half_at(file, E_PHNUM));
    let start = word_at(file, E_PHOFF) as usize;
    (count == 0 || usize::from(half_at(file, E_PHENTSIZE)) == SEGMENT)
        && start + SEGMENT * count <= file.len()
}

// Whether the bytes of a segment that is loaded lie in the file.
fn is_segment_whole(file: &[u8], segment: Segment) -> bool
    ensures { IsTrue result ↔ IsSegmentWhole file.now segment }
{
    if !segment.loads() {
        return true;
    }
    segment.p_filesz <= segment.p_memsz
        && segment.p_offset as usize + segment.p_filesz as usize <= file.len()
}

// Whether this holds of each segment.
fn are_segments_whole(file: &[u8]) -> bool
    requires { IsHeaderWhole file.now }
    ensures { IsTrue result ↔ EachSegment file.now (IsSegmentWhole file.now) }
{
    for number in 0..half_at(file, E_PHNUM) {
        if !is_segment_whole(file, segment_at(file, number)) {
            return false;
        }
    }
    true
}

/// The symbols of a file that is whole, or nothing where a header, a segment or a table isn't.
pub(crate) fn whole_tables(file: &[u8]) -> Option<Tables<'_>>
    ensures some { IfSome result (λ tables. IsWhole file.now
        × AreTables file.now tables.symbols.now tables.strings.now) }
    ensures none { IfNone result (¬ IsWhole file.now) }
{
    if !has_headers(file) || !are_segments_whole(file) {
        return None;
    }
    read_tables(file)
}
