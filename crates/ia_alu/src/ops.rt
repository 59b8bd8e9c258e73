//! The operations on two operands, and those on one.

ghost use Rattle.std.specs.Prelude.{◌≡◌, ◌≢◌, ◌<◌, ◌≤◌, ◌%◌, ◌^◌, ◌↔◌, IsTrue, false, count_ones};
ghost use Rattle.ia_word.specs.Width.{bits_of};
ghost use Rattle.ia_regs.specs.Flags.{has_carry, has_parity, has_adjust, has_zero, has_sign, has_overflow, with_carry};
ghost use Rattle.ia_alu.specs.Numbers.{half_of};
ghost use Rattle.ia_alu.specs.Ops.{alu_value, alu_flags, inc_dec_value, inc_dec_flags, logic_flags, carry_in};
ghost use Rattle.ia_alu.specs.Ops.{AluCarries, AluAdjusts, AluOverflows, IncDecAdjusts, IncDecOverflows};
ghost use Rattle.ia_alu.specs.Sums.{difference_of, difference_flags};
ghost use Rattle.ia_word.specs.declared.width.Width.TheVariants.{D};

use crate::numbers::result_flags;
use crate::sums::{add, sub};
use ia_regs::Flags;
use ia_word::{AluOp, IncDecOp, Width};

/// The result of an operation on two operands, and the flags after it (SDM volume 2, ADD, OR, ADC, SBB, AND, SUB, XOR,
/// CMP). CMP gives the difference, which the instruction does not store.
#[inline(always)]
#[tactic(auto, unfolding(crate::specs::Ops::alu_value, crate::specs::Ops::alu_flags))]
pub fn alu(op: AluOp, width: Width, a: u32, b: u32, flags: Flags) -> (u32, Flags)
    requires left { a < 2 ^ bits_of width }
    requires right { b < 2 ^ bits_of width }
    ensures value { result.0 ≡ alu_value op width a b flags }
    ensures flags { result.1 ≡ alu_flags op width a b flags }
    ensures fits { result.0 < 2 ^ bits_of width }

    // The flags one by one.
    ensures cf { IsTrue (has_carry result.1) ↔ AluCarries op width a b (carry_in op flags) }
    ensures pf { IsTrue (has_parity result.1) ↔ count_ones (result.0 % 256) % 2 ≡ 0 }
    ensures af { IsTrue (has_adjust result.1) ↔ AluAdjusts op a b (carry_in op flags) flags }
    ensures zf { IsTrue (has_zero result.1) ↔ result.0 ≡ 0 }
    ensures sf { IsTrue (has_sign result.1) ↔ half_of width ≤ result.0 }
    ensures of { IsTrue (has_overflow result.1) ↔ AluOverflows op width a b (carry_in op flags) }
{
    match op {
        AluOp::Add => add(width, a, b, false),
        AluOp::Or => logic(width, a | b, flags),
        AluOp::Adc => add(width, a, b, flags.carry()),
        AluOp::Sbb => sub(width, a, b, flags.carry()),
        AluOp::And => logic(width, a & b, flags),
        AluOp::Sub => sub(width, a, b, false),
        AluOp::Xor => logic(width, a ^ b, flags),
        AluOp::Cmp => sub(width, a, b, false),
    }
}

// A result of AND, OR or XOR with its flags.
#[inline(always)]
#[tactic(auto, unfolding(crate::specs::Ops::logic_flags))]
fn logic(width: Width, value: u32, flags: Flags) -> (u32, Flags)
    ensures value { result.0 ≡ value }
    ensures flags { result.1 ≡ logic_flags width value flags }

    // The flags one by one.
    ensures cf { has_carry result.1 ≡ false }
    ensures pf { IsTrue (has_parity result.1) ↔ count_ones (value % 256) % 2 ≡ 0 }
    ensures af { has_adjust result.1 ≡ has_adjust flags }
    ensures zf { IsTrue (has_zero result.1) ↔ value ≡ 0 }
    ensures sf { IsTrue (has_sign result.1) ↔ half_of width ≤ value }
    ensures of { has_overflow result.1 ≡ false }
{
    (
        value,
        result_flags(width, value, false, flags.adjust(), false),
    )
}

/// An operand with 1 added or taken away, modulo 2^8 or 2^32. The carry flag is kept (SDM volume 2, INC, DEC).
#[inline(always)]
#[tactic(auto, unfolding(crate::specs::Ops::inc_dec_value, crate::specs::Ops::inc_dec_flags))]
pub fn incdec(op: IncDecOp, width: Width, a: u32, flags: Flags) -> (u32, Flags)
    requires { a < 2 ^ bits_of width }
    ensures value { result.0 ≡ inc_dec_value op width a }
    ensures flags { result.1 ≡ inc_dec_flags op width a flags }
    ensures fits { result.0 < 2 ^ bits_of width }

    // The flags one by one: CF is kept.
    ensures cf { has_carry result.1 ≡ has_carry flags }
    ensures pf { IsTrue (has_parity result.1) ↔ count_ones (result.0 % 256) % 2 ≡ 0 }
    ensures af { IsTrue (has_adjust result.1) ↔ IncDecAdjusts op a }
    ensures zf { IsTrue (has_zero result.1) ↔ result.0 ≡ 0 }
    ensures sf { IsTrue (has_sign result.1) ↔ half_of width ≤ result.0 }
    ensures of { IsTrue (has_overflow result.1) ↔ IncDecOverflows op width a }
{
    match op {
        IncDecOp::Inc => keep_carry(add(width, a, 1, false), flags),
        IncDecOp::Dec => keep_carry(sub(width, a, 1, false), flags),
    }
}

// A result with its flags, of which CF is as before.
#[inline(always)]
fn keep_carry(after: (u32, Flags), before: Flags) -> (u32, Flags)
    ensures value { result.0 ≡ after.0 }
    ensures flags { result.1 ≡ with_carry (has_carry before) after.1 }
    ensures cf { has_carry result.1 ≡ has_carry before }
    ensures pf { has_parity result.1 ≡ has_parity after.1 }
    ensures af { has_adjust result.1 ≡ has_adjust after.1 }
    ensures zf { has_zero result.1 ≡ has_zero after.1 }
    ensures sf { has_sign result.1 ≡ has_sign after.1 }
    ensures of { has_overflow result.1 ≡ has_overflow after.1 }
{
    let (value, flags) = after;
    (value, flags.with_carry(before.carry()))
}

/// 0 minus a doubleword, modulo 2^32, and the flags of that difference (SDM volume 2, NEG).
#[inline(always)]
pub fn neg(a: u32) -> (u32, Flags)
    ensures value { result.0 ≡ difference_of D 0 a 0 }
    ensures flags { result.1 ≡ difference_flags D 0 a 0 }

    // The flags one by one.
    ensures cf { IsTrue (has_carry result.1) ↔ a ≢ 0 }
    ensures pf { IsTrue (has_parity result.1) ↔ count_ones (result.0 % 256) % 2 ≡ 0 }
    ensures af { IsTrue (has_adjust result.1) ↔ a % 16 ≢ 0 }
    ensures zf { IsTrue (has_zero result.1) ↔ a ≡ 0 }
    ensures sf { IsTrue (has_sign result.1) ↔ half_of D ≤ result.0 }
    ensures of { IsTrue (has_overflow result.1) ↔ a ≡ 2 ^ 31 }
{
    sub(Width::D, 0, a, false)
}
