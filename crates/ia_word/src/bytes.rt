//! A doubleword and its four bytes, the lowest first, and what one byte says of a number: its sign and its parity.

ghost use Rattle.std.specs.Prelude.{◌≡◌, ◌==◌, ◌%◌, count_ones};
ghost use Rattle.ia_word.specs.Bytes.{sign_extended, long_bytes, long_of};

/// A byte as a signed number, in 32 bits (SDM volume 2, "Sign extension of immediates and displacements").
#[inline(always)]
pub fn sign_extend(byte: u8) -> u32
    ensures { result ≡ sign_extended byte }
{
    if byte < 0x80 {
        u32::from(byte)
    } else {
        u32::from(byte) + 0xffff_ff00
    }
}

/// Whether a byte has an even number of ones: what PF says of a result's low byte.
#[inline(always)]
pub fn parity_even(byte: u8) -> bool
    ensures { result ≡ (count_ones byte % 2 == 0) }
{
    byte.count_ones() % 2 == 0
}

/// The four bytes of a doubleword, the lowest first (SDM volume 1, "Bit and Byte Order").
#[inline(always)]
pub fn le_bytes(word: u32) -> [u8; 4]
    ensures { result ≡ long_bytes word }
{
    word.to_le_bytes()
}

/// The doubleword of four bytes, the lowest first.
#[inline(always)]
pub fn from_le(bytes: [u8; 4]) -> u32
    ensures { result ≡ long_of bytes }
{
    u32::from_le_bytes(bytes)
}
