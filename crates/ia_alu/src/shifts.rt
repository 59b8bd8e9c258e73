//! Shifts and rotations of a doubleword.

ghost use Rattle.std.specs.Prelude.{◌≡◌, ◌≢◌, ◌↔◌, ◌<◌, ◌≤◌, ◌^◌, ◌%◌, ◌/◌, ◌*◌, ◌+◌, ◌==◌, IsTrue, count_ones, nat_le};
ghost use Rattle.std.specs.Prelude.{true, if◌then◌else◌};
ghost use Rattle.ia_alu.specs.Shifts.{shift_value, shift_flags, moved_value, moved_flags, top_bit, rotated_at};
ghost use Rattle.ia_alu.specs.Shifts.{plain_shift_flags, rotation_flags_of, ShiftCarries, ShiftParity, ShiftZero};
ghost use Rattle.ia_alu.specs.Shifts.{ShiftSign, shift_overflows};
ghost use Rattle.ia_regs.specs.Flags.{differ, has_carry, has_parity, has_adjust, has_zero, has_sign, has_overflow};
ghost use Rattle.ia_word.specs.declared.width.Width.TheVariants.{D};

use crate::numbers::{as_signed, low_word, result_flags};
use ia_regs::Flags;
use ia_word::{ShiftOp, Width};

/// A doubleword shifted by a count modulo 32, and the flags after it (SDM volume 2, RCL/RCR/ROL/ROR and
/// SAL/SAR/SHL/SHR). Where the count modulo 32 is 0, the doubleword and all flags stay.
#[tactic(auto, unfolding(crate::specs::Shifts::shift_value, crate::specs::Shifts::shift_flags))]
pub fn shift(op: ShiftOp, a: u32, count: u8, flags: Flags) -> (u32, Flags)
    ensures value { result.0 ≡ shift_value op a count }
    ensures flags { result.1 ≡ shift_flags op a count flags }

    // A count of 0 modulo 32 changes nothing.
    ensures unmoved { count % 32 ≡ 0 → result.0 ≡ a }
    ensures kept { count % 32 ≡ 0 → result.1 ≡ flags }

    // The flags one by one, for another count.
    ensures cf { 0 < count % 32 → IsTrue (has_carry result.1) ↔ ShiftCarries op a (count % 32) }
    ensures pf { 0 < count % 32 → IsTrue (has_parity result.1) ↔ ShiftParity op result.0 flags }
    ensures af { 0 < count % 32 → has_adjust result.1 ≡ has_adjust flags }
    ensures zf { 0 < count % 32 → IsTrue (has_zero result.1) ↔ ShiftZero op result.0 flags }
    ensures sf { 0 < count % 32 → IsTrue (has_sign result.1) ↔ ShiftSign op result.0 flags }
    ensures of { count % 32 ≡ 1 → has_overflow result.1 ≡ shift_overflows op a result.0 }
    ensures of_kept { 1 < count % 32 → has_overflow result.1 ≡ has_overflow flags }
{
    let by = count % 32;
    if by == 0 {
        (a, flags)
    } else {
        moved(op, a, u32::from(by), flags)
    }
}

// `shift` for a count from 1 to 31.
#[tactic(auto, unfolding(crate::specs::Shifts::moved_value, crate::specs::Shifts::moved_flags))]
fn moved(op: ShiftOp, a: u32, by: u32, flags: Flags) -> (u32, Flags)
    requires some { 0 < by }
    requires few { by < 32 }
    ensures value { result.0 ≡ moved_value op a by }
    ensures flags { result.1 ≡ moved_flags op a by flags }
    ensures cf { IsTrue (has_carry result.1) ↔ ShiftCarries op a by }
    ensures pf { IsTrue (has_parity result.1) ↔ ShiftParity op result.0 flags }
    ensures af { has_adjust result.1 ≡ has_adjust flags }
    ensures zf { IsTrue (has_zero result.1) ↔ ShiftZero op result.0 flags }
    ensures sf { IsTrue (has_sign result.1) ↔ ShiftSign op result.0 flags }
    ensures of { by ≡ 1 → has_overflow result.1 ≡ shift_overflows op a result.0 }
    ensures of_kept { by ≢ 1 → has_overflow result.1 ≡ has_overflow flags }
{
    match op {
        ShiftOp::Rol => {
            let value = rotated(a, 32 - by);
            let carry = value % 2 == 1;
            (value, rotation_flags(carry, top(value), by, flags))
        }
        ShiftOp::Ror => {
            let value = rotated(a, by);
            (
                value,
                rotation_flags(top(value), value / 0x4000_0000 % 2 == 1, by, flags),
            )
        }
        ShiftOp::Shl => {
            let value = a << by;
            let carry = (a >> (32 - by)) % 2 == 1;
            (
                value,
                plain_flags(value, by, carry, carry != top(value), flags),
            )
        }
        ShiftOp::Shr => {
            let value = a >> by;
            let carry = (a >> (by - 1)) % 2 == 1;
            (value, plain_flags(value, by, carry, top(a), flags))
        }
        ShiftOp::Sar => {
            let value = low_word(as_signed(Width::D, a) >> by);
            let carry = (a >> (by - 1)) % 2 == 1;
            (value, plain_flags(value, by, carry, false, flags))
        }
    }
}

// The top bit of a doubleword.
fn top(value: u32) -> bool
    ensures { result ≡ top_bit value }
{
    value >= 0x8000_0000
}

// A doubleword whose low bits, so many, change places with the others.
fn rotated(a: u32, low: u32) -> u32
    requires some { 0 < low }
    requires few { low < 32 }
    ensures { result ≡ rotated_at a low }
{
    ((a % (1 << low)) << (32 - low)) + (a >> low)
}

// OF is defined for a count of 1 alone, and else kept.
fn overflow_after(by: u32, overflow: bool, flags: Flags) -> bool
    ensures value { result ≡ (if by == 1 then overflow else has_overflow flags) }
    ensures one { by ≡ 1 → result ≡ overflow }
    ensures kept { by ≢ 1 → result ≡ has_overflow flags }
{
    if by == 1 { overflow } else { flags.overflow() }
}

// The flags of a shift, with its carry, and its overflow for a count of 1.
fn plain_flags(value: u32, by: u32, carry: bool, overflow: bool, flags: Flags) -> Flags
    ensures flags { result ≡ plain_shift_flags value by carry overflow flags }
    ensures cf { has_carry result ≡ carry }
    ensures pf { IsTrue (has_parity result) ↔ count_ones (value % 256) % 2 ≡ 0 }
    ensures af { has_adjust result ≡ has_adjust flags }
    ensures zf { IsTrue (has_zero result) ↔ value ≡ 0 }
    ensures sf { IsTrue (has_sign result) ↔ 2 ^ 31 ≤ value }
    ensures of { by ≡ 1 → has_overflow result ≡ overflow }
    ensures of_kept { by ≢ 1 → has_overflow result ≡ has_overflow flags }
{
    let overflow = overflow_after(by, overflow, flags);
    result_flags(Width::D, value, carry, flags.adjust(), overflow)
}

// The flags of a rotation, where the overflow for a count of 1 is the carry against another bit.
fn rotation_flags(carry: bool, against: bool, by: u32, flags: Flags) -> Flags
    ensures flags { result ≡ rotation_flags_of by carry (differ carry against) flags }
    ensures cf { has_carry result ≡ carry }
    ensures pf { has_parity result ≡ has_parity flags }
    ensures af { has_adjust result ≡ has_adjust flags }
    ensures zf { has_zero result ≡ has_zero flags }
    ensures sf { has_sign result ≡ has_sign flags }
    ensures of { by ≡ 1 → has_overflow result ≡ differ carry against }
    ensures of_kept { by ≢ 1 → has_overflow result ≡ has_overflow flags }
{
    let overflow = overflow_after(by, carry != against, flags);
    flags.with_carry(carry).with_overflow(overflow)
}
