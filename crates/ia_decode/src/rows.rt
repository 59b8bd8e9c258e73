//! What rows of the opcode maps share.

ghost use Rattle.std.specs.Prelude.{◌≡◌, ◌<◌, IfOk};
ghost use Rattle.ia_insn.specs.Operands.{Head, head_of};
ghost use Rattle.ia_insn.specs.Table.{alu_of, shift_of, bit_of, inc_dec_of};
ghost use Rattle.ia_insn.specs.Reading.{Gives, head_at, modrm_at};
ghost use Rattle.ia_modrm.specs.Heads.{head};

use ia_insn::{DecodeFault, Operand};
use ia_modrm::{ModRm, byte, operand};
use ia_word::{AluOp, BitOp, IncDecOp, ShiftOp};

/// A ModRM byte.
#[tactic(auto, unfolding(ia_insn::specs::Reading::head_at))]
pub fn head_byte(bytes: &[u8]) -> Result<(ModRm, &[u8]), DecodeFault>
    ensures read { Gives (λ x. (head x.0, x.1.now)) result (head_at bytes.now) }
    ensures reg { IfOk result (λ x. x.0.reg < 8) }
{
    let (first, rest) = byte(bytes)?;
    Ok((ModRm::from_byte(first), rest))
}

/// A ModRM operand of any kind, and the reg field.
#[tactic(auto, unfolding(ia_insn::specs::Reading::modrm_at))]
pub fn modrm(bytes: &[u8]) -> Result<(u8, Operand, &[u8]), DecodeFault>
    ensures read { Gives (λ x. ((x.0, x.1), x.2.now)) result (modrm_at bytes.now) }
    ensures reg { IfOk result (λ x. x.0 < 8) }
{
    let (head, rest) = head_byte(bytes)?;
    let (place, rest) = operand(head, rest)?;
    Ok((head.reg, place, rest))
}

/// ADD to CMP by number.
pub fn alu(number: u8) -> AluOp
    requires { number < 8 }
    ensures { result ≡ alu_of number }
{
    match number {
        0 => AluOp::Add,
        1 => AluOp::Or,
        2 => AluOp::Adc,
        3 => AluOp::Sbb,
        4 => AluOp::And,
        5 => AluOp::Sub,
        6 => AluOp::Xor,
        _ => AluOp::Cmp,
    }
}

/// ROL, ROR, SHL, SHR and SAR by /n.
pub fn shift(number: u8) -> Option<ShiftOp>
    ensures { result ≡ shift_of number }
{
    match number {
        0 => Some(ShiftOp::Rol),
        1 => Some(ShiftOp::Ror),
        4 => Some(ShiftOp::Shl),
        5 => Some(ShiftOp::Shr),
        7 => Some(ShiftOp::Sar),
        _ => None,
    }
}

/// BT, BTS, BTR and BTC by /n.
pub fn bit_op(number: u8) -> Option<BitOp>
    ensures { result ≡ bit_of number }
{
    match number {
        4 => Some(BitOp::Bt),
        5 => Some(BitOp::Bts),
        6 => Some(BitOp::Btr),
        7 => Some(BitOp::Btc),
        _ => None,
    }
}

/// INC and DEC by /n.
pub fn inc_dec(number: u8) -> Option<IncDecOp>
    ensures { result ≡ inc_dec_of number }
{
    match number {
        0 => Some(IncDecOp::Inc),
        1 => Some(IncDecOp::Dec),
        _ => None,
    }
}
