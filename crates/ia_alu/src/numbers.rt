//! Operands as signed whole numbers: what they stand for by their top bit, and the flags of a result by its number. For
//! `sums` and `products`, whose overflow is that of the number and not of its bits.

ghost use Rattle.std.specs.Prelude.{◌≡◌, ◌<◌, ◌^◌, ◌≤◌, ◌%◌, ◌<ℤ◌, ◌≤ℤ◌, ◌↔◌, IsTrue, count_ones, pos, neg_ℤ};
ghost use Rattle.ia_word.specs.Width.{bits_of};
ghost use Rattle.ia_regs.specs.Flags.{flags_of, has_carry, has_parity, has_adjust, has_zero, has_sign, has_overflow};
ghost use Rattle.ia_alu.specs.Numbers.{signed_value, overflows, half_of, flags_from, modulo};

use ia_regs::Flags;
use ia_word::{Width, parity_even};

/// Half of the values of a width: from there on the top bit is 1.
#[inline(always)]
pub(crate) fn half(width: Width) -> u64
    ensures { result ≡ half_of width }
{
    match width {
        Width::B => 0x80,
        Width::D => 0x8000_0000,
    }
}

/// The signed number that an operand stands for.
#[inline(always)]
#[tactic(auto, unfolding(crate::specs::Numbers::signed_value))]
pub(crate) fn as_signed(width: Width, operand: u32) -> i64
    requires { operand < 2 ^ bits_of width }
    ensures value { result ≡ signed_value width operand }
    ensures low { neg_ℤ (pos (2 ^ 31)) ≤ℤ result }
    ensures high { result <ℤ pos (2 ^ 31) }
{
    match width {
        Width::B => i64::from((operand as u8).cast_signed()),
        Width::D => i64::from(operand.cast_signed()),
    }
}

/// Whether a number is no signed number of this width.
#[inline(always)]
#[tactic(auto, unfolding(crate::specs::Numbers::overflows))]
pub(crate) fn is_outside(width: Width, number: i64) -> bool
    ensures { result ≡ overflows width number }
{
    match width {
        Width::B => number < -0x80 || number >= 0x80,
        Width::D => number < -0x8000_0000 || number >= 0x8000_0000,
    }
}

/// What a signed number leaves in a doubleword.
#[inline(always)]
pub(crate) fn low_word(number: i64) -> u32
    ensures { result ≡ modulo (2 ^ 32) number }
{
    (number.cast_unsigned() % 0x1_0000_0000) as u32
}

/// The flags of a result, with its carry, adjust and overflow.
#[inline(always)]
pub(crate) fn result_flags(
    width: Width,
    value: u32,
    carry: bool,
    adjust: bool,
    overflow: bool,
) -> Flags
    ensures flags { result ≡ flags_from width value carry adjust overflow }

    // The flags one by one.
    ensures cf { has_carry result ≡ carry }
    ensures pf { IsTrue (has_parity result) ↔ count_ones (value % 256) % 2 ≡ 0 }
    ensures af { has_adjust result ≡ adjust }
    ensures zf { IsTrue (has_zero result) ↔ value ≡ 0 }
    ensures sf { IsTrue (has_sign result) ↔ half_of width ≤ value }
    ensures of { has_overflow result ≡ overflow }
{
    let parity = parity_even((value % 0x100) as u8);
    Flags::of(
        carry,
        parity,
        adjust,
        value == 0,
        u64::from(value) >= half(width),
        overflow,
    )
}
