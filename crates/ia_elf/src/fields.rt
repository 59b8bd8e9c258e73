//! Fields of an ELF32 file, at the offsets that the System V ABI gives them (gABI, chapter 4, "ELF Header").

ghost use Rattle.std.specs.Prelude.{◌≡◌, ◌+◌, ◌≤◌, ◌↔◌, IsTrue, length};
ghost use Rattle.ia_elf.specs.Fields.{half_at, word_at, IsMagic};

/// How many bytes the file header has.
pub(crate) const HEADER: usize = 52;

/// The file's class, byte order and version, in its first bytes.
pub(crate) const EI_CLASS: usize = 4;

pub(crate) const EI_DATA: usize = 5;

pub(crate) const EI_VERSION: usize = 6;

/// Where the fields of the file header lie.
pub(crate) const E_TYPE: usize = 16;

pub(crate) const E_MACHINE: usize = 18;

pub(crate) const E_VERSION: usize = 20;

pub(crate) const E_ENTRY: usize = 24;

pub(crate) const E_PHOFF: usize = 28;

pub(crate) const E_SHOFF: usize = 32;

pub(crate) const E_PHENTSIZE: usize = 42;

pub(crate) const E_PHNUM: usize = 44;

pub(crate) const E_SHENTSIZE: usize = 46;

pub(crate) const E_SHNUM: usize = 48;

pub(crate) const E_SHSTRNDX: usize = 50;

/// The number in two bytes, the lowest first.
#[tactic(auto, unfolding(crate::specs::Fields::half_at))]
pub(crate) fn half_at(bytes: &[u8], offset: usize) -> u16
    requires { offset + 2 ≤ length bytes.now }
    ensures { result ≡ half_at bytes.now offset }
{
    u16::from_le_bytes([bytes[offset], bytes[offset + 1]])
}

/// The number in four bytes, the lowest first.
#[tactic(auto, unfolding(crate::specs::Fields::word_at))]
pub(crate) fn word_at(bytes: &[u8], offset: usize) -> u32
    requires { offset + 4 ≤ length bytes.now }
    ensures { result ≡ word_at bytes.now offset }
{
    u32::from_le_bytes([
        bytes[offset],
        bytes[offset + 1],
        bytes[offset + 2],
        bytes[offset + 3],
    ])
}

/// Whether a file begins with the bytes 7f 45 4c 46, as every ELF file does.
pub fn is_elf(file: &[u8]) -> bool
    ensures { IsTrue result ↔ IsMagic file.now }
{
    file.len() >= 4 && file[0] == 0x7f && file[1] == b'E' && file[2] == b'L' && file[3] == b'F'
}
