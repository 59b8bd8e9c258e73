//! The opcodes of two bytes, behind 0F, and PAUSE, which stands behind F3. A second byte that the subset lacks is
//! `NotInSubset`, before the bytes behind it are read.

ghost use Rattle.std.specs.Prelude.{◌≡◌, ◌<◌, ◌≤◌};
ghost use Rattle.ia_insn.specs.Table.{two_byte, behind_f3};
ghost use Rattle.ia_insn.specs.Reading.{Gives, form_at};

use crate::rows::{bit_op, head_byte, modrm};
use ia_insn::{DecodeFault, Op};
use ia_modrm::{byte, long, operand};
use ia_word::{BareOp, Condition, ExchangeOp, ExtendOp};

/// 0F 01: XEND and XTEST.
#[tactic(auto, unfolding(ia_insn::specs::Table::two_byte, ia_insn::specs::Reading::operand_at))]
fn row_01(bytes: &[u8]) -> Result<(Op, &[u8]), DecodeFault>
    ensures { Gives (λ x. (x.0, x.1.now)) result (form_at (two_byte 0x01) bytes.now) }
{
    let (head, rest) = head_byte(bytes)?;
    match (head.mode, head.reg, head.rm) {
        (3, 2, 5) => Ok((Op::Bare(BareOp::Xend), rest)),
        (3, 2, 6) => Ok((Op::Bare(BareOp::Xtest), rest)),
        _ => Err(DecodeFault::NotInSubset),
    }
}

/// 0F AE: the fences.
#[tactic(auto, unfolding(ia_insn::specs::Table::two_byte, ia_insn::specs::Reading::operand_at))]
fn row_ae(bytes: &[u8]) -> Result<(Op, &[u8]), DecodeFault>
    ensures { Gives (λ x. (x.0, x.1.now)) result (form_at (two_byte 0xAE) bytes.now) }
{
    let (head, rest) = head_byte(bytes)?;
    match (head.mode, head.reg, head.rm) {
        (3, 5, 0) => Ok((Op::Bare(BareOp::Lfence), rest)),
        (3, 6, 0) => Ok((Op::Bare(BareOp::Mfence), rest)),
        (3, 7, 0) => Ok((Op::Bare(BareOp::Sfence), rest)),
        _ => Err(DecodeFault::NotInSubset),
    }
}

/// 0F 1F /0: NOP with an operand.
#[tactic(auto, unfolding(ia_insn::specs::Table::two_byte))]
fn nop_of(bytes: &[u8]) -> Result<(Op, &[u8]), DecodeFault>
    ensures { Gives (λ x. (x.0, x.1.now)) result (form_at (two_byte 0x1F) bytes.now) }
{
    let (head, rest) = head_byte(bytes)?;
    if head.reg != 0 {
        return Err(DecodeFault::NotInSubset);
    }
    let (operand, rest) = operand(head, rest)?;
    Ok((Op::NopOf(operand), rest))
}

/// 0F 90 to 9F /0: SETcc.
#[tactic(auto, unfolding(ia_insn::specs::Table::two_byte))]
fn setcc(opcode: u8, bytes: &[u8]) -> Result<(Op, &[u8]), DecodeFault>
    requires low { 0x90 ≤ opcode }
    requires high { opcode ≤ 0x9F }
    ensures { Gives (λ x. (x.0, x.1.now)) result (form_at (two_byte opcode) bytes.now) }
{
    let (head, rest) = head_byte(bytes)?;
    if head.reg != 0 {
        return Err(DecodeFault::NotInSubset);
    }
    let (operand, rest) = operand(head, rest)?;
    Ok((Op::Setcc(Condition::of(opcode - 0x90), operand), rest))
}

/// 0F BA /4 to /7: the bit of a number.
#[tactic(auto, unfolding(ia_insn::specs::Table::two_byte))]
fn row_ba(bytes: &[u8]) -> Result<(Op, &[u8]), DecodeFault>
    ensures { Gives (λ x. (x.0, x.1.now)) result (form_at (two_byte 0xBA) bytes.now) }
{
    let (head, rest) = head_byte(bytes)?;
    let Some(kind) = bit_op(head.reg) else {
        return Err(DecodeFault::NotInSubset);
    };
    let (operand, rest) = operand(head, rest)?;
    let (number, rest) = byte(rest)?;
    Ok((Op::Bit(kind, operand, number), rest))
}

/// What a byte behind 0F and the bytes behind it are.
#[tactic(auto, unfolding(ia_insn::specs::Table::two_byte))]
pub fn behind_0f(opcode: u8, bytes: &[u8]) -> Result<(Op, &[u8]), DecodeFault>
    ensures { Gives (λ x. (x.0, x.1.now)) result (form_at (two_byte opcode) bytes.now) }
{
    match opcode {
        0x01 => row_01(bytes),
        0x0b => Ok((Op::Bare(BareOp::Ud2), bytes)),
        0x1f => nop_of(bytes),
        0x40..=0x4f => {
            let (reg, operand, rest) = modrm(bytes)?;
            Ok((Op::Cmovcc(Condition::of(opcode - 0x40), reg, operand), rest))
        }
        0x80..=0x8f => {
            let (distance, rest) = long(bytes)?;
            Ok((Op::Jcc(Condition::of(opcode - 0x80), distance), rest))
        }
        0x90..=0x9f => setcc(opcode, bytes),
        0xa2 => Ok((Op::Bare(BareOp::Cpuid), bytes)),
        0xae => row_ae(bytes),
        0xaf => {
            let (reg, operand, rest) = modrm(bytes)?;
            Ok((Op::Imul(reg, operand), rest))
        }
        0xb1 => {
            let (reg, operand, rest) = modrm(bytes)?;
            Ok((Op::Exchange(ExchangeOp::Compare, operand, reg), rest))
        }
        0xb6 => {
            let (reg, operand, rest) = modrm(bytes)?;
            Ok((Op::Extend(ExtendOp::Zero, reg, operand), rest))
        }
        0xba => row_ba(bytes),
        0xbe => {
            let (reg, operand, rest) = modrm(bytes)?;
            Ok((Op::Extend(ExtendOp::Sign, reg, operand), rest))
        }
        0xc1 => {
            let (reg, operand, rest) = modrm(bytes)?;
            Ok((Op::Exchange(ExchangeOp::Add, operand, reg), rest))
        }
        _ => Err(DecodeFault::NotInSubset),
    }
}

/// What a byte behind F3 is: PAUSE or nothing.
#[tactic(auto, unfolding(ia_insn::specs::Table::behind_f3))]
pub fn behind_f3(opcode: u8, bytes: &[u8]) -> Result<(Op, &[u8]), DecodeFault>
    ensures { Gives (λ x. (x.0, x.1.now)) result (form_at (behind_f3 opcode) bytes.now) }
{
    match opcode {
        0x90 => Ok((Op::Bare(BareOp::Pause), bytes)),
        _ => Err(DecodeFault::NotInSubset),
    }
}
