//! Sums and differences of bytes and doublewords, with a carry or a borrow that comes in, and all six flags of the
//! result. INC and DEC, which leave CF, are not here.

ghost use Rattle.std.specs.Prelude.{◌≡◌, ◌<◌, ◌≤◌, ◌^◌, ◌+◌, ◌%◌, ◌+ℤ◌, ◌-ℤ◌, ◌↔◌, IsTrue, count_ones, pos};
ghost use Rattle.ia_regs.specs.Flags.{has_carry, has_parity, has_adjust, has_zero, has_sign, has_overflow};
ghost use Rattle.ia_alu.specs.Numbers.{signed_value, half_of, IsOutside};
ghost use Rattle.ia_word.specs.Width.{bits_of};
ghost use Rattle.ia_alu.specs.Sums.{sum_of, sum_flags, difference_of, difference_flags};
ghost use Rattle.std.specs.Int.{from_bool};

use crate::numbers::{as_signed, is_outside, result_flags};
use ia_regs::Flags;
use ia_word::Width;

/// The sum of two operands and a carry, modulo 2^8 or 2^32, and all six flags (SDM volume 2, ADD and ADC).
#[inline(always)]
#[tactic(auto, unfolding(crate::specs::Sums::sum_flags))]
pub fn add(width: Width, a: u32, b: u32, carry: bool) -> (u32, Flags)
    requires left { a < 2 ^ bits_of width }
    requires right { b < 2 ^ bits_of width }
    ensures value { result.0 ≡ sum_of width a b (from_bool carry) }
    ensures flags { result.1 ≡ sum_flags width a b (from_bool carry) }
    ensures fits { result.0 < 2 ^ bits_of width }

    // The flags one by one.
    ensures cf { IsTrue (has_carry result.1) ↔ 2 ^ bits_of width ≤ a + b + from_bool carry }
    ensures pf { IsTrue (has_parity result.1) ↔ count_ones (result.0 % 256) % 2 ≡ 0 }
    ensures af { IsTrue (has_adjust result.1) ↔ 16 ≤ a % 16 + b % 16 + from_bool carry }
    ensures zf { IsTrue (has_zero result.1) ↔ result.0 ≡ 0 }
    ensures sf { IsTrue (has_sign result.1) ↔ half_of width ≤ result.0 }
    ensures of { IsTrue (has_overflow result.1) ↔
        IsOutside width (signed_value width a +ℤ signed_value width b +ℤ pos (from_bool carry)) }
{
    let sum = u64::from(a) + u64::from(b) + u64::from(carry);
    let value = (sum % width.range()) as u32;
    let adjust = a % 16 + b % 16 + u32::from(carry) >= 16;
    let total = as_signed(width, a) + as_signed(width, b) + i64::from(carry);
    let overflow = is_outside(width, total);
    (
        value,
        result_flags(width, value, sum >= width.range(), adjust, overflow),
    )
}

/// The first operand less the second and a borrow, modulo 2^8 or 2^32, and all six flags (SDM volume 2, SUB and SBB).
#[inline(always)]
#[tactic(auto, unfolding(crate::specs::Sums::difference_flags))]
pub fn sub(width: Width, a: u32, b: u32, borrow: bool) -> (u32, Flags)
    requires left { a < 2 ^ bits_of width }
    requires right { b < 2 ^ bits_of width }
    ensures value { result.0 ≡ difference_of width a b (from_bool borrow) }
    ensures flags { result.1 ≡ difference_flags width a b (from_bool borrow) }
    ensures fits { result.0 < 2 ^ bits_of width }

    // The flags one by one.
    ensures cf { IsTrue (has_carry result.1) ↔ a < b + from_bool borrow }
    ensures pf { IsTrue (has_parity result.1) ↔ count_ones (result.0 % 256) % 2 ≡ 0 }
    ensures af { IsTrue (has_adjust result.1) ↔ a % 16 < b % 16 + from_bool borrow }
    ensures zf { IsTrue (has_zero result.1) ↔ result.0 ≡ 0 }
    ensures sf { IsTrue (has_sign result.1) ↔ half_of width ≤ result.0 }
    ensures of { IsTrue (has_overflow result.1) ↔
        IsOutside width (signed_value width a -ℤ signed_value width b -ℤ pos (from_bool borrow)) }
{
    let taken = u64::from(b) + u64::from(borrow);
    let value = ((u64::from(a) + width.range() - taken) % width.range()) as u32;
    let adjust = a % 16 < b % 16 + u32::from(borrow);
    let total = as_signed(width, a) - as_signed(width, b) - i64::from(borrow);
    let overflow = is_outside(width, total);
    (
        value,
        result_flags(width, value, u64::from(a) < taken, adjust, overflow),
    )
}
