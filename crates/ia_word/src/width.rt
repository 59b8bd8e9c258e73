//! How wide an operand is, a byte or a doubleword, and what follows from that: how many values it has, and how many
//! bytes of memory it takes.

ghost use Rattle.std.specs.Prelude.{◌≡◌, ◌^◌};
ghost use Rattle.ia_word.specs.Width.{bits_of, bytes_of};

/// The width of an operand. Operands of 16 bits are outside the subset.
#[derive(Clone, Copy, PartialEq, Eq, Debug)]
pub enum Width {
    /// A byte.
    B,
    /// A doubleword, 4 bytes.
    D,
}

impl Width {
    /// How many values an operand of this width has: 2^8 or 2^32.
    #[inline(always)]
    pub fn range(self) -> u64
        ensures { result ≡ 2 ^ bits_of self }
    {
        match self {
            Width::B => 0x100,
            Width::D => 0x1_0000_0000,
        }
    }

    /// How many bytes an operand of this width takes in memory: 1 or 4.
    #[inline(always)]
    pub fn bytes(self) -> u32
        ensures { result ≡ bytes_of self }
    {
        match self {
            Width::B => 1,
            Width::D => 4,
        }
    }
}
