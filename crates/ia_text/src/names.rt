//! The words of operands: registers and sizes.

ghost use Rattle.std.specs.Prelude.{◌≡◌, ◌≤◌, length};
ghost use Rattle.ia_text.specs.Names.{register_name, size_name};

use ia_word::Width;

/// The register of that number.
pub fn register(width: Width, number: u8) -> &'static [u8]
    ensures name { result.now ≡ register_name width number }
    ensures short { length result.now ≤ 3 }
{
    match width {
        Width::D => match number {
            0 => b"eax",
            1 => b"ecx",
            2 => b"edx",
            3 => b"ebx",
            4 => b"esp",
            5 => b"ebp",
            6 => b"esi",
            _ => b"edi",
        },
        Width::B => match number {
            0 => b"al",
            1 => b"cl",
            2 => b"dl",
            3 => b"bl",
            4 => b"ah",
            5 => b"ch",
            6 => b"dh",
            _ => b"bh",
        },
    }
}

pub fn size(width: Width) -> &'static [u8]
    ensures name { result.now ≡ size_name width }
    ensures short { length result.now ≤ 5 }
{
    match width {
        Width::D => b"dword",
        Width::B => b"byte",
    }
}
