//! The bit by which a width is written.

ghost use Rattle.std.specs.Prelude.{◌≡◌, ◌<◌};
ghost use Rattle.ia_insn.specs.Encoding.{width_bit};

use ia_word::Width;

/// The low bit of an opcode: 0 at bytes, 1 at doublewords.
pub fn width_bit(width: Width) -> u8
    ensures bit { result ≡ width_bit width }
    ensures low { result < 2 }
{
    match width {
        Width::B => 0,
        Width::D => 1,
    }
}
