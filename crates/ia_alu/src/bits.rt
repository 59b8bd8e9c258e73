//! Bit tests: a doubleword, the index of a bit and the flags come in; the doubleword as it is left and the flags come
//! out, where CF alone is another. An index past 31 counts modulo 32, as for an operand in a register.

ghost use Rattle.std.specs.Prelude.{◌≡◌, ◌<◌, ◌%◌, ◌==◌, ◌↔◌, ℕ, IsTrue};
ghost use Rattle.std.specs.Int.{bit_at};
ghost use Rattle.ia_alu.specs.Bits.{bit_after, bit_value};
ghost use Rattle.ia_regs.specs.Flags.{has_carry, has_parity, has_adjust, has_zero, has_sign, has_overflow, with_carry};

use ia_regs::Flags;
use ia_word::BitOp;

/// A doubleword with the bit of an index modulo 32 as it is, set, cleared or turned, and CF the bit before (SDM volume
/// 2, BT, BTS, BTR, BTC).
#[tactic(auto, using(crate::proofs::SetBits::chosen_is, crate::proofs::SetBits::others_are))]
pub fn bit(op: BitOp, a: u32, index: u8, flags: Flags) -> (u32, Flags)
    ensures value { result.0 ≡ bit_value op a (index % 32) }
    ensures flags { result.1 ≡ with_carry (bit_at a (index % 32) == 1) flags }

    // The chosen bit is as it was, set, cleared or turned, and the others are as they were.
    ensures chosen { bit_at result.0 (index % 32) ≡ bit_after op (bit_at a (index % 32)) }
    ensures others { (k : ℕ) → (k ≡ index % 32 → ⊥) → bit_at result.0 k ≡ bit_at a k }

    // The flags one by one: all but CF are kept.
    ensures cf { IsTrue (has_carry result.1) ↔ bit_at a (index % 32) ≡ 1 }
    ensures pf { has_parity result.1 ≡ has_parity flags }
    ensures af { has_adjust result.1 ≡ has_adjust flags }
    ensures zf { has_zero result.1 ≡ has_zero flags }
    ensures sf { has_sign result.1 ≡ has_sign flags }
    ensures of { has_overflow result.1 ≡ has_overflow flags }
{
    let place = index % 32;
    let after = selected(a, place, flags);
    (changed(op, a, place), after)
}

// The number, with the bit at a place as it is, set, cleared or turned.
#[tactic(auto, using(crate::proofs::SetBits::kept))]
fn changed(op: BitOp, a: u32, place: u8) -> u32
    requires { place < 32 }
    ensures { result ≡ bit_value op a place }
{
    let mask = 1u32 << place;
    match op {
        BitOp::Bt => a,
        BitOp::Bts => a | mask,
        BitOp::Btr => a & !mask,
        BitOp::Btc => a ^ mask,
    }
}

// The flags, with CF the bit at a place.
fn selected(a: u32, place: u8, flags: Flags) -> Flags
    requires { place < 32 }
    ensures flags { result ≡ with_carry (bit_at a place == 1) flags }
    ensures cf { IsTrue (has_carry result) ↔ bit_at a place ≡ 1 }
    ensures pf { has_parity result ≡ has_parity flags }
    ensures af { has_adjust result ≡ has_adjust flags }
    ensures zf { has_zero result ≡ has_zero flags }
    ensures sf { has_sign result ≡ has_sign flags }
    ensures of { has_overflow result ≡ has_overflow flags }
{
    flags.with_carry((a >> place) % 2 == 1)
}
